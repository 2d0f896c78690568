//! Why a replay against another server came to no end.

ghost use Rattle.std.specs.Prelude.{◌≡◌, ◌++◌, IfOk, OnOk};
ghost use Rattle.replay_cli.specs.declared.unsent.Unsent.TheVariants.{Mismatch as Mismatched};
ghost use Rattle.replay_cli.specs.Lines.{heard_text, unsent_line, unsent_status};

use crate::failure::{append_at, line_of};
use capture_format::append_reply;
use desk_values::{Bytes, List, Memory};
use remote_link::Heard;
use std::alloc::Global;

/// Why a replay against another server came to no end.
#[derive(Drop)]
pub enum Unsent {
    /// A line failed, or could not be dialled.
    Link,
    /// The desk carries another job.
    Job,
    /// What the desk keeps of a session is not what its line heard.
    Mismatch {
        /// The session.
        session: u32,
        /// The first place where they differ.
        place: u32,
        /// What the desk has there.
        kept: Option<Heard>,
        /// What the line has there.
        answered: Option<Heard>,
    },
}

impl Unsent {
    /// The status that the program ends with.
    pub fn status(&self) -> u8
        ensures { result ≡ unsent_status self.now }
    {
        match self {
            Unsent::Link => 10,
            Unsent::Job => 9,
            Unsent::Mismatch { .. } => 9,
        }
    }

    /// The line that the program prints.
    pub fn line(&self, alloc: Global) -> Result<Bytes, Memory>
        ensures { IfOk result (λ line. line ≡ unsent_line self.now) }
    {
        match self {
            Unsent::Link => line_of(alloc, "link fault", ""),
            Unsent::Job => line_of(alloc, "mismatch: job", ""),
            Unsent::Mismatch {
                session,
                place,
                kept,
                answered,
            } => mismatch_line(alloc, *session, *place, kept, answered),
        }
    }
}

/// A place of a session, and the replies that differ there.
fn mismatch_line(
    alloc: Global,
    session: u32,
    place: u32,
    kept: &Option<Heard>,
    answered: &Option<Heard>,
) -> Result<Bytes, Memory>
    ensures { IfOk result (λ line. line ≡ unsent_line (Mismatched session place kept.now answered.now)) }
{
    let mut line = List::new(alloc);
    append_at("mismatch: session ", session, &mut line)?;
    append_at(" place ", place, &mut line)?;
    line.append(b": ")?;
    append_heard(kept, &mut line)?;
    line.append(b" / ")?;
    append_heard(answered, &mut line)?;
    line.append(b"\n")?;
    Ok(line)
}

/// Appends a reply, `-` where there is no call or no reply to it.
fn append_heard(heard: &Option<Heard>, to: &mut Bytes) -> Result<(), Memory>
    ensures { OnOk result (to.new ≡ to.old ++ heard_text heard.now) }
{
    match heard {
        Some(
            Heard {
                reply: Some(reply),
                ..
            },
        ) => append_reply(reply, to),
        _ => to.append(b"-"),
    }
}
