//! In what the files of a run do not go together with a capture, and how that is told.

ghost use Rattle.std.specs.Prelude.{◌≡◌, ◌++◌, IfOk, OnOk};
ghost use Rattle.run_files.specs.Lines.{at_text, counts_text, kind_word, misfit_text};

use desk_values::fields::append_u64;
use desk_values::{Bytes, List, Memory};
use std::alloc::Global;

/// What an event of a journal is of a call.
#[derive(Clone, Copy, Debug, PartialEq, Eq)]
pub enum Kind {
    /// Its start.
    Start,
    /// Its answer.
    Answer,
}

impl Kind {
    // The word for several of them.
    fn word(self) -> &'static str
        ensures { result.now ≡ kind_word self }
    {
        match self {
            Kind::Start => "starts",
            Kind::Answer => "answers",
        }
    }
}

/// In what the files of a run do not go together with a capture.
#[derive(Clone, Copy, Debug, PartialEq, Eq)]
pub enum Misfit {
    /// The journal has so many events of a kind, and the capture so many calls.
    Events { kind: Kind, events: u64, calls: u64 },
    /// The journal has not just one event of a kind of the call with this stamp.
    Event { kind: Kind, stamp: u32 },
    /// The report is on so many calls, and the capture has so many.
    Calls { reported: u64, calls: u64 },
    /// The call with this stamp has another session or place in the report.
    Place { stamp: u32 },
    /// The causes are not those of the report's lines.
    Causes,
    /// Plain reads are there, and the journal's mode is not `fence`.
    Reads,
    /// A plain read has this stamp, which is that of no call.
    Read { stamp: u32 },
}

impl Misfit {
    /// What is told of it: the file, and what does not fit there.
    pub fn text(&self, alloc: Global) -> Result<Bytes, Memory>
        ensures { IfOk result (λ text. text ≡ misfit_text self.now) }
    {
        let mut text = List::new(alloc);
        match self {
            Misfit::Events {
                kind,
                events,
                calls,
            } => append_counts("journal.txt", *events, kind.word(), *calls, &mut text)?,
            Misfit::Event { kind, stamp } => {
                append_at("journal.txt", kind.word(), *stamp, &mut text)?;
            }
            Misfit::Calls { reported, calls } => {
                append_counts("report.txt", *reported, "calls", *calls, &mut text)?;
            }
            Misfit::Place { stamp } => append_at("report.txt", "calls", *stamp, &mut text)?,
            Misfit::Causes => text.append(b"causes.csv")?,
            Misfit::Reads => text.append(b"fence.txt")?,
            Misfit::Read { stamp } => append_at("fence.txt", "reads", *stamp, &mut text)?,
        }
        Ok(text)
    }
}

// A file, and of what it does not have just one of this stamp.
fn append_at(file: &str, things: &str, stamp: u32, to: &mut Bytes) -> Result<(), Memory>
    ensures { OnOk result (to.new ≡ to.old ++ at_text file.now things.now stamp) }
{
    to.append(file.as_bytes())?;
    to.append(b" ")?;
    to.append(things.as_bytes())?;
    to.append(b" at stamp ")?;
    append_u64(u64::from(stamp), to)
}

// A file, how many things it has, and how many it should.
fn append_counts(
    file: &str,
    found: u64,
    things: &str,
    right: u64,
    to: &mut Bytes,
) -> Result<(), Memory>
    ensures { OnOk result (to.new ≡ to.old ++ counts_text file.now found things.now right) }
{
    to.append(file.as_bytes())?;
    to.append(b" has ")?;
    append_u64(found, to)?;
    to.append(b" ")?;
    to.append(things.as_bytes())?;
    to.append(b", not ")?;
    append_u64(right, to)
}
