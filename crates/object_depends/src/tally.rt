//! How many calls each call requires, and the last of them.
//!
//! Over sound facts one pass is enough. It keeps one tally for each group of calls that wait for the same: in `Object` there is
//! one group for each set of tables that a call references, in `Fence` one for the numbered commits and one for the others, in
//! the other modes one alone. So the time grows with the calls times the groups. Where the facts are not sound each call is
//! compared with every other.

ghost use Rattle.std.specs.Prelude.{◌≡◌, ◌+◌, ◌++◌, ◌∷◌, [], ◌<◌, ◌≤◌, ℕ, List, length, vec_len, IfOk, IfSome, IsTrue, OnOk, Some};
ghost use Rattle.object_depends.specs.Facts.{fact_at, AreSound};
ghost use Rattle.object_depends.specs.Required.{is_required, required, stamps_where};
ghost use Rattle.object_depends.specs.Tallies.{tally_of};
ghost use Rattle.object_depends.specs.Inside.{AreTallied, AreTallies, WaitAlike, awaited, awaits, group_at};

use crate::fact::{Fact, are_sound, is_commit, shares_table};
use desk_values::Memory;
use replay_history::Mode;
use std::alloc::Global;

/// How many stamps there are, and the last.
#[derive(Clone, Copy)]
pub struct Tally {
    /// How many there are.
    pub count: u32,
    /// The last, or `None` where there is none.
    pub last: Option<u32>,
}

/// A call, and the tally of the calls so far that it waits for. It stands for all calls that wait for the same.
#[derive(Clone, Copy)]
pub struct Group {
    /// The call.
    pub call: Fact,
    /// What it waits for so far.
    pub tally: Tally,
}

const NONE: Tally = Tally {
    count: 0,
    last: None,
};

/// The tallies of the stamps that the calls require, by stamp.
pub fn tallies(alloc: Global, facts: &[Fact], mode: Mode) -> Result<Vec<Tally>, Memory>
    requires { length facts.now ≤ 100000 }
    ensures len { IfOk result (λ tallies. vec_len tallies ≡ length facts.now) }
    ensures each { IfOk result (λ tallies. AreTallies mode facts.now tallies.items (length facts.now)) }
{
    if are_sound(facts) {
        passed(alloc, facts, mode)
    } else {
        compared(alloc, facts, mode)
    }
}

// Those of any facts, each call compared with every other.
fn compared(alloc: Global, facts: &[Fact], mode: Mode) -> Result<Vec<Tally>, Memory>
    requires { length facts.now ≤ 100000 }
    ensures len { IfOk result (λ tallies. vec_len tallies ≡ length facts.now) }
    ensures each { IfOk result (λ tallies. AreTallies mode facts.now tallies.items (length facts.now)) }
{
    let mut tallies = Vec::new(alloc);
    for k in 0..facts.len() {
        tallies.push(compared_at(mode, facts, k))?;
    }
    Ok(tallies)
}

// That of one call.
fn compared_at(mode: Mode, facts: &[Fact], k: usize) -> Tally
    requires few { length facts.now ≤ 100000 }
    requires k { k < length facts.now }
    ensures { result ≡ tally_of (required mode facts.now k) }
{
    let mut tally = NONE;
    for j in 0..facts.len() {
        if is_required(mode, facts, k, j) {
            tally = one_more(tally, j as u32);
        }
    }
    tally
}

/// Whether call k requires call j.
pub fn is_required(mode: Mode, facts: &[Fact], k: usize, j: usize) -> bool
    requires k { k < length facts.now }
    requires j { j < length facts.now }
    ensures { result ≡ is_required mode facts.now k j }
{
    let has_seen = is_commit(&facts[j]) && facts[j].number <= facts[k].seen;
    match mode {
        Mode::Off => false,
        Mode::Scn => has_seen,
        Mode::Object => has_seen && shares_table(facts[j].writes, facts[k].refs),
        Mode::Order => j < k,
        Mode::Fence if is_commit(&facts[k]) => j < k,
        Mode::Fence => has_seen,
    }
}

// Those of sound facts, in one pass.
fn passed(alloc: Global, facts: &[Fact], mode: Mode) -> Result<Vec<Tally>, Memory>
    requires few { length facts.now ≤ 100000 }
    requires sound { AreSound facts.now }
    ensures len { IfOk result (λ tallies. vec_len tallies ≡ length facts.now) }
    ensures each { IfOk result (λ tallies. AreTallies mode facts.now tallies.items (length facts.now)) }
{
    let mut groups = Vec::new(alloc);
    let mut tallies = Vec::new(alloc);
    for k in 0..facts.len() {
        let tally = pass(&mut groups, mode, facts, k)?;
        tallies.push(tally)?;
    }
    Ok(tallies)
}

// The tally of a call by its group, and the groups with that call noted.
fn pass(groups: &mut Vec<Group>, mode: Mode, facts: &[Fact], k: usize) -> Result<Tally, Memory>
    requires few { length facts.now ≤ 100000 }
    requires sound { AreSound facts.now }
    requires k { k < length facts.now }
    requires tallied { AreTallied mode facts.now groups.old.items k }
    ensures tally { IfOk result (λ tally. tally ≡ tally_of (required mode facts.now k)) }
    ensures tallied { OnOk result (AreTallied mode facts.now groups.new.items (k + 1)) }
{
    let place = place_for(groups, mode, facts, k)?;
    let tally = groups[place].tally;
    note(groups.as_mut_slice(), mode, facts, k);
    Ok(tally)
}

// The place of the group of a call, which is added where there is none.
fn place_for(groups: &mut Vec<Group>, mode: Mode, facts: &[Fact], k: usize) -> Result<usize, Memory>
    requires few { length facts.now ≤ 100000 }
    requires k { k < length facts.now }
    requires tallied { AreTallied mode facts.now groups.old.items k }
    ensures place { IfOk result
        (λ place. (place < vec_len groups.new) × WaitAlike mode (group_at groups.new.items place).call (fact_at facts.now k)) }
    ensures tallied { OnOk result (AreTallied mode facts.now groups.new.items k) }
{
    let call = facts[k];
    if let Some(place) = place_of(groups.as_slice(), mode, &call) {
        return Ok(place);
    }
    let place = groups.len();
    groups.push(Group {
        call,
        tally: awaited_below(mode, facts, &call, k),
    })?;
    Ok(place)
}

// The place of a group of calls that wait for the same as this one.
fn place_of(groups: &[Group], mode: Mode, call: &Fact) -> Option<usize>
    ensures { IfSome result (λ place. (place < length groups.now) × WaitAlike mode (group_at groups.now place).call call.now) }
{
    for (place, group) in groups.iter().enumerate() {
        if wait_alike(mode, &group.call, call) {
            return Some(place);
        }
    }
    None
}

// Whether two calls are known to wait for the same.
fn wait_alike(mode: Mode, left: &Fact, right: &Fact) -> bool
    ensures { IsTrue result → WaitAlike mode left.now right.now }
{
    match mode {
        Mode::Off | Mode::Scn | Mode::Order => true,
        Mode::Object => left.refs == right.refs,
        Mode::Fence => is_commit(left) == is_commit(right),
    }
}

// Whether a call waits for another that stands before it.
fn awaits(mode: Mode, call: &Fact, other: &Fact) -> bool
    ensures { result ≡ awaits mode call.now other.now }
{
    match mode {
        Mode::Off => false,
        Mode::Scn => is_commit(other),
        Mode::Object => is_commit(other) && shares_table(other.writes, call.refs),
        Mode::Order => true,
        Mode::Fence => is_commit(call) || is_commit(other),
    }
}

// The tally of the calls with a lower stamp that a call waits for.
fn awaited_below(mode: Mode, facts: &[Fact], call: &Fact, end: usize) -> Tally
    requires few { length facts.now ≤ 100000 }
    requires end { end ≤ length facts.now }
    ensures { result ≡ tally_of (awaited mode facts.now call.now end) }
{
    let mut tally = NONE;
    for j in 0..end {
        tally = counted(tally, mode, call, facts, j);
    }
    tally
}

// Notes a call in the tallies of the groups that wait for it.
fn note(groups: &mut [Group], mode: Mode, facts: &[Fact], k: usize)
    requires few { length facts.now ≤ 100000 }
    requires k { k < length facts.now }
    requires tallied { AreTallied mode facts.now groups.old k }
    ensures { AreTallied mode facts.now groups.new (k + 1) }
{
    for i in 0..groups.len() {
        let Group { call, tally } = groups[i];
        groups[i] = Group {
            call,
            tally: counted(tally, mode, &call, facts, k),
        };
    }
}

// The tally of what a call waits for, after one more call.
fn counted(tally: Tally, mode: Mode, call: &Fact, facts: &[Fact], j: usize) -> Tally
    requires few { length facts.now ≤ 100000 }
    requires j { j < length facts.now }
    requires tally { tally ≡ tally_of (awaited mode facts.now call.now j) }
    ensures { result ≡ tally_of (awaited mode facts.now call.now (j + 1)) }
{
    if !awaits(mode, call, &facts[j]) {
        return tally;
    }
    one_more(tally, j as u32)
}

// The tally with one more stamp, above the others.
fn one_more(tally: Tally, stamp: u32) -> Tally
    requires { tally.count < 100000 }
    ensures { result ≡ record { count = tally.count + 1; last = Some stamp } }
{
    Tally {
        count: tally.count + 1,
        last: Some(stamp),
    }
}
