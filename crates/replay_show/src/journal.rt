//! What a journal says of a call.

ghost use Rattle.std.specs.Prelude.{◌≡◌, ◌++◌, None, OnOk, option_map};
ghost use Rattle.replay_show.specs.Lines.{answer_from, behind_shown, start_line, started_from};

use desk_values::fields::append_u64;
use desk_values::{Bytes, Event, Memory, Reply};

/// The place and the reply of the first answer to a call.
#[tactic(auto, using(crate::proofs::Going::answer_here, crate::proofs::Going::answer_on, crate::proofs::Going::answer_past, crate::proofs::Going::answer_none))]
pub(crate) fn answer_to(stamp: u32, history: &[Event]) -> Option<(usize, &Reply)>
    ensures { option_map (λ found. (found.0, found.1.now)) result ≡ answer_from stamp 0 history.now }
{
    for (n, event) in history.iter().enumerate() {
        if let Event::Answer(other, reply) = event {
            if *other == stamp {
                return Some((n, reply));
            }
        }
    }
    None
}

/// Appends the line of the first start of a call, if there is one.
#[tactic(auto, using(crate::proofs::Going::front))]
pub(crate) fn append_started(stamp: u32, history: &[Event], to: &mut Bytes) -> Result<(), Memory>
    ensures { OnOk result (to.new ≡ to.old ++ started_from stamp 0 None history.now) }
{
    let mut last = None;
    for (n, event) in history.iter().enumerate() {
        match event {
            Event::Start(other, pause) if *other == stamp => {
                return append_start(n as u64, *pause, last, to);
            }
            Event::Start(_, _) => {}
            Event::Answer(other, _) => last = Some(*other),
        }
    }
    Ok(())
}

// The line of a start at a place, with its pause, behind the answer to the last call.
fn append_start(n: u64, pause: u64, last: Option<u32>, to: &mut Bytes) -> Result<(), Memory>
    ensures { OnOk result (to.new ≡ to.old ++ start_line n pause last) }
{
    to.append(b"started     event ")?;
    append_u64(n, to)?;
    to.append(b", after a pause of ")?;
    append_u64(pause, to)?;
    to.append(b" us, ")?;
    append_behind(last, to)?;
    to.append(b"\n")
}

// Behind which answer.
fn append_behind(last: Option<u32>, to: &mut Bytes) -> Result<(), Memory>
    ensures { OnOk result (to.new ≡ to.old ++ behind_shown last) }
{
    match last {
        Some(stamp) => {
            to.append(b"right after the answer to call ")?;
            append_u64(u64::from(stamp), to)
        }
        None => to.append(b"before any answer"),
    }
}
