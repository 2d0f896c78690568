ghost use Rattle.std.specs.Prelude.{◌≡◌, ◌++◌, ℕ, IfOk, OnOk};
ghost use Rattle.std.specs.BTreeMap.{get};
ghost use Rattle.std.specs.BTreeSet.{contains};
ghost use Rattle.std.specs.Option.{option_copied};
ghost use Rattle.std.specs.Ordering.{nat_cmp};
ghost use Rattle.replay_history.specs.Class.{class_number};
ghost use Rattle.run_register.specs.Comparison.{AreDifferences, all_differences, is_accepted, line_at, of_all_first, of_all_second, of_first, of_second, stamp_of};
ghost use Rattle.run_register.specs.Inside.{pair_cmp};

use crate::kept::{Accept, AcceptList};
use desk_values::{List, Memory};
use replay_history::{Class, Line, Lines};
use std::alloc::Global;
use std::collections::{BTreeMap, BTreeSet};

/// What differs between two runs at a call.
#[derive(Clone, Copy, Debug, PartialEq, Eq)]
pub enum Difference {
    /// The second run differs from its capture there, and the first does not.
    New(Line),
    /// The first does, and the second does not.
    Gone(Line),
    /// Both do, the second by this class.
    Changed(Line, Class),
}

impl Difference {
    // The stamp of its call.
    fn stamp(self) -> u32
        ensures { result ≡ stamp_of self }
    {
        match self {
            Difference::New(line) => line.stamp,
            Difference::Gone(line) => line.stamp,
            Difference::Changed(line, _) => line.stamp,
        }
    }
}

/// What differs, by stamp.
pub type Differences = List<Difference>;

/// What differs between two runs of one capture, less what was accepted. Of several lines with one stamp the first counts.
pub fn compare(a: &Lines, b: &Lines, accepted: &AcceptList) -> Result<Differences, Memory>
    ensures { IfOk result (λ found. AreDifferences a.now b.now accepted.now found) }
{
    let mut found = unordered(a, b, accepted.as_slice())?.into_vec();
    found.sort_by_key(|difference| difference.stamp())?;
    Ok(List::from_vec(found))
}

// All differences, those of the first run's lines in front.
fn unordered(a: &Lines, b: &Lines, accepted: &[Accept]) -> Result<Differences, Memory>
    ensures { IfOk result (λ found. found ≡ all_differences a.now b.now accepted.now) }
{
    let alloc = a.allocator();
    let accepted = pairs_of(alloc, accepted)?;
    let (a, b) = (a.as_slice(), b.as_slice());
    let in_first = by_stamp(alloc, a)?;
    let in_second = by_stamp(alloc, b)?;
    let mut found = List::new(alloc);
    append_of_first(a, &in_second, &accepted, &mut found)?;
    append_of_second(b, &in_first, &accepted, &mut found)?;
    Ok(found)
}

// The lines by their stamps. They are taken from the end, so that the first of a stamp stays.
fn by_stamp(alloc: Global, lines: &[Line]) -> Result<BTreeMap<u32, Line>, Memory>
    ensures { IfOk result (λ map. (stamp : ℕ) → get nat_cmp map stamp ≡ line_at lines.now stamp) }
{
    let count = lines.len();
    let mut map = BTreeMap::new(alloc);
    for step in 0..count {
        let line = lines[count - 1 - step];
        map.insert(line.stamp, line)?;
    }
    Ok(map)
}

// The stamps and classes that were accepted.
fn pairs_of(alloc: Global, accepted: &[Accept]) -> Result<BTreeSet<(u32, u32)>, Memory>
    ensures { IfOk result (λ pairs. (stamp class : ℕ) → contains pair_cmp pairs (stamp, class) ≡ is_accepted accepted.now stamp class) }
{
    let mut pairs = BTreeSet::new(alloc);
    for accept in accepted {
        pairs.insert((accept.stamp, accept.class))?;
    }
    Ok(pairs)
}

fn append_of_first(
    a: &[Line],
    b: &BTreeMap<u32, Line>,
    accepted: &BTreeSet<(u32, u32)>,
    to: &mut Differences,
) -> Result<(), Memory>
    ensures { OnOk result (to.new ≡ to.old
        ++ of_all_first (λ stamp class. contains pair_cmp accepted.now (stamp, class)) a.now (get nat_cmp b.now)) }
{
    for line in a {
        append_first(line, b.get(&line.stamp), accepted, to)?;
    }
    Ok(())
}

fn append_of_second(
    b: &[Line],
    a: &BTreeMap<u32, Line>,
    accepted: &BTreeSet<(u32, u32)>,
    to: &mut Differences,
) -> Result<(), Memory>
    ensures { OnOk result (to.new ≡ to.old
        ++ of_all_second (λ stamp class. contains pair_cmp accepted.now (stamp, class)) b.now (get nat_cmp a.now)) }
{
    for line in b {
        append_second(line, a.get(&line.stamp), accepted, to)?;
    }
    Ok(())
}

// What a line of the first run gives.
fn append_first(
    line: &Line,
    other: Option<&Line>,
    accepted: &BTreeSet<(u32, u32)>,
    to: &mut Differences,
) -> Result<(), Memory>
    ensures { OnOk result (to.new ≡ to.old
        ++ of_first (λ stamp class. contains pair_cmp accepted.now (stamp, class)) line.now (option_copied other.entry)) }
{
    let Some(other) = other else {
        return to.push(Difference::Gone(*line));
    };
    if line.class == other.class || accepts(accepted, line.stamp, other.class) {
        return Ok(());
    }
    to.push(Difference::Changed(*line, other.class))
}

// What a line of the second run gives.
fn append_second(
    line: &Line,
    other: Option<&Line>,
    accepted: &BTreeSet<(u32, u32)>,
    to: &mut Differences,
) -> Result<(), Memory>
    ensures { OnOk result (to.new ≡ to.old
        ++ of_second (λ stamp class. contains pair_cmp accepted.now (stamp, class)) line.now (option_copied other.entry)) }
{
    if other.is_some() || accepts(accepted, line.stamp, line.class) {
        return Ok(());
    }
    to.push(Difference::New(*line))
}

// Whether a divergence of this call and class was accepted.
fn accepts(accepted: &BTreeSet<(u32, u32)>, stamp: u32, class: Class) -> bool
    ensures { result ≡ contains pair_cmp accepted.now (stamp, class_number class) }
{
    accepted.contains(&(stamp, number(class)))
}

// The class's place in their list.
fn number(class: Class) -> u32
    ensures { result ≡ class_number class }
{
    class as u32
}
