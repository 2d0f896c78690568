//! The file `requires.csv`.

ghost use Rattle.std.specs.Prelude.{◌≡◌, ◌++◌, ◌≤◌, length, IfOk, OnOk};
ghost use Rattle.replay_history.specs.declared.mode.Mode.TheVariants.{Off, Scn, Object, Order};
ghost use Rattle.object_depends.specs.Csv.{last_text, need_line, requires_text};

use crate::fact::{Fact, FactList};
use crate::tally::{Tally, tallies};
use desk_values::fields::append_u64;
use desk_values::{Bytes, List, Memory, Word};
use replay_history::Mode;
use std::alloc::Global;

/// The text of `requires.csv`: a line of each call and each mode but `Fence`, with how many calls it requires and the greatest
/// of them. In `Fence` a numbered commit requires what it does in `Order`, any other call what it does in `Scn`.
pub fn requires_csv(alloc: Global, facts: &FactList) -> Result<Bytes, Memory>
    requires { length facts.now ≤ 100000 }
    ensures { IfOk result (λ text. text ≡ requires_text facts.now) }
{
    written(alloc, facts.as_slice())
}

fn written(alloc: Global, facts: &[Fact]) -> Result<Bytes, Memory>
    requires { length facts.now ≤ 100000 }
    ensures { IfOk result (λ text. text ≡ requires_text facts.now) }
{
    let off = tallies(alloc, facts, Mode::Off)?;
    let scn = tallies(alloc, facts, Mode::Scn)?;
    let object = tallies(alloc, facts, Mode::Object)?;
    let order = tallies(alloc, facts, Mode::Order)?;
    let mut text = List::new(alloc);
    text.append(b"stamp,mode,count,last\n")?;
    for k in 0..facts.len() {
        append_call(k as u32, off[k], scn[k], object[k], order[k], &mut text)?;
    }
    Ok(text)
}

// The four lines of a call.
fn append_call(
    k: u32,
    off: Tally,
    scn: Tally,
    object: Tally,
    order: Tally,
    to: &mut Bytes,
) -> Result<(), Memory>
    ensures { OnOk result
        (to.new ≡ to.old ++ (need_line k Off off ++ (need_line k Scn scn ++ (need_line k Object object ++ need_line k Order order)))) }
{
    append_need(k, Mode::Off, off, to)?;
    append_need(k, Mode::Scn, scn, to)?;
    append_need(k, Mode::Object, object, to)?;
    append_need(k, Mode::Order, order, to)
}

// The line of a call and a mode.
fn append_need(k: u32, mode: Mode, tally: Tally, to: &mut Bytes) -> Result<(), Memory>
    ensures { OnOk result (to.new ≡ to.old ++ need_line k mode tally) }
{
    append_u64(u64::from(k), to)?;
    to.push(b',')?;
    to.append(mode.word().as_bytes())?;
    to.push(b',')?;
    append_u64(u64::from(tally.count), to)?;
    to.push(b',')?;
    append_last(tally.last, to)?;
    to.push(b'\n')
}

// A stamp, or `-`.
fn append_last(last: Option<u32>, to: &mut Bytes) -> Result<(), Memory>
    ensures { OnOk result (to.new ≡ to.old ++ last_text last) }
{
    match last {
        Some(stamp) => append_u64(u64::from(stamp), to),
        None => to.push(b'-'),
    }
}
