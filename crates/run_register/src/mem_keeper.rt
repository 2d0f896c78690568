ghost use Rattle.std.specs.Prelude.{◌≡◌, ◌↔◌, ◌≤◌, OnOk, OnErr, IfOk, IsErrOf, IsTrue, Some, None, false, length, map};
ghost use Rattle.std.specs.List.{filter, list_any};
ghost use Rattle.std.specs.Option.{option_copied};
ghost use Rattle.std.specs.FinMap as finite_map;
ghost use Rattle.std.specs.Ordering.{eq_by_cmp};
ghost use Rattle.desk_files.specs.Outside.{is_failed, raised};
ghost use Rattle.desk_files.specs.Memory.{no_calls, fails_now, after_call};
ghost use Rattle.run_register.specs.Memory.{NamesRise, divergence_of, divergences_of, runs_of};
ghost use Rattle.run_register.specs.Register.{accept_of, accepts_of, after_accepting, after_adding, divergence_cmp, entry_of, keeper_ending, name_cmp};
ghost use Rattle.run_register.specs.Inside.{place_of};

use crate::keeper::Keeper;
use crate::kept::{Accept, AcceptList, KeepErr, Kept, KeptList};
use desk_files::Calls;
use desk_values::{Bytes, Copied, List, Memory, Stamps, Txt};
use std::alloc::Global;
use std::cmp::Ordering;
use std::marker::Model;

/// Reports and accepted divergences in memory, which tells them. Its calls of [`Keeper`] are numbered together from 0, and
/// those whose numbers were given to [`MemKeeper::new`] fail and change nothing but the count of faults.
#[derive(Drop)]
pub struct MemKeeper {
    alloc: Global,
    runs: Vec<Kept>,
    accepted: Vec<Accepted>,
    calls: Calls,
    closes: u64,
}

// A divergence that was accepted of a run.
#[derive(Drop)]
struct Accepted {
    name: Txt,
    stamp: u32,
    class: u32,
}

impl Model for MemKeeper {
    ghost use Rattle.run_register.specs.Memory.{MemoryKeeper, NamesRise, divergences_of, memory_keeper_code, runs_of};
    ghost use Rattle.run_register.specs.Inside.{DivergencesRise};

    ghost Value = { MemoryKeeper };

    ghost coded = { memory_keeper_code };

    ghost view = { λ a. record { runs = runs_of a.runs.items; divergences = divergences_of a.accepted.items; calls = a.calls; closes = a.closes } };

    ghost invariant = { λ a. NamesRise a.runs.items × DivergencesRise a.accepted.items };
}

impl MemKeeper {
    /// These runs, of which nothing is accepted. The calls with the numbers `fails` are to fail.
    #[tactic(auto, using(crate::proofs::Keeping::none_accepted))]
    pub fn new(alloc: Global, runs: KeptList, fails: Stamps) -> MemKeeper
        requires { NamesRise runs }
        ensures { result ≡ record { runs = runs_of runs; divergences = finite_map.empty; calls = no_calls fails; closes = 0 } }
    {
        MemKeeper {
            alloc,
            runs: runs.into_vec(),
            accepted: Vec::new(alloc),
            calls: Calls::new(fails),
            closes: 0,
        }
    }

    // The report of a run.
    fn held(&self, name: &Txt) -> Option<&Bytes>
        ensures { option_copied result ≡ finite_map.get self.now.runs name.now }
    {
        report_of(self.runs.as_slice(), name)
    }

    // Copies of the runs.
    fn stored(&self) -> Result<KeptList, Memory>
        ensures { IfOk result (λ list. map entry_of list ≡ finite_map.entries self.now.runs) }
    {
        List::from_slice(self.alloc, self.runs.as_slice())
    }

    // What was accepted of a run.
    fn accepts(&self, name: &Txt) -> Result<AcceptList, Memory>
        ensures { IfOk result (λ list. list ≡ accepts_of name.now self.now.divergences) }
    {
        accepts_of(self.alloc, self.accepted.as_slice(), name)
    }

    // Whether this divergence was accepted.
    fn has(&self, accepted: &Accepted) -> bool
        ensures { result ≡ finite_map.contains_key self.now.divergences (divergence_of accepted.now).0 }
    {
        is_among(self.accepted.as_slice(), accepted)
    }

    // Keeps the report of a run that is new.
    fn put(&mut self, name: &Txt, report: &[u8]) -> Result<(), Memory>
        requires { finite_map.get self.old.runs name.now ≡ None }
        ensures ok { OnOk result (self.new ≡ record self.old { runs = finite_map.insert self.old.runs name.now report.now }) }
        ensures err { OnErr result (self.new ≡ self.old) }
    {
        let name = name.copy()?;
        let report = copy_of(self.alloc, report)?;
        put_run(&mut self.runs, Kept { name, report })
    }

    // Accepts a divergence that is new.
    fn put_accepted(&mut self, accepted: Accepted) -> Result<(), Memory>
        requires { finite_map.contains_key self.old.divergences (divergence_of accepted).0 ≡ false }
        ensures ok { OnOk result (self.new ≡ record self.old {
          divergences = finite_map.insert self.old.divergences (divergence_of accepted).0 tt;
        }) }
        ensures err { OnErr result (self.new ≡ self.old) }
    {
        put_divergence(&mut self.accepted, accepted)
    }
}

impl Keeper for MemKeeper {
    ghost account = { λ s. record { runs = Some s.runs; divergences = Some s.divergences; faults = s.calls.faults; closes = s.closes } };

    fn get(&mut self, name: &Txt) -> Result<Option<Bytes>, KeepErr>
        ensures failed { IsErrOf result KeepErr.Failed ↔ IsTrue (fails_now self.old.calls) }
        ensures says { IfOk result (λ found. found ≡ finite_map.get self.old.runs name.now) }
        ensures runs { self.new.runs ≡ self.old.runs }
        ensures divergences { self.new.divergences ≡ self.old.divergences }
        ensures calls { self.new.calls ≡ after_call self.old.calls (is_failed (keeper_ending result)) }
        ensures closes { self.new.closes ≡ self.old.closes }
    {
        if self.calls.fails_now() {
            self.calls.count(true);
            return Err(KeepErr::Failed);
        }
        self.calls.count(false);
        match self.held(name) {
            Some(report) => Ok(Some(copy_of(self.alloc, report.as_slice())?)),
            None => Ok(None),
        }
    }

    fn add(&mut self, name: &Txt, report: &[u8]) -> Result<Option<Bytes>, KeepErr>
        ensures failed { IsErrOf result KeepErr.Failed ↔ IsTrue (fails_now self.old.calls) }
        ensures says { IfOk result (λ found. found ≡ finite_map.get self.old.runs name.now) }
        ensures runs { self.new.runs ≡ after_adding (keeper_ending result) (name.now, report.now) self.old.runs }
        ensures divergences { self.new.divergences ≡ self.old.divergences }
        ensures calls { self.new.calls ≡ after_call self.old.calls (is_failed (keeper_ending result)) }
        ensures closes { self.new.closes ≡ self.old.closes }
    {
        if self.calls.fails_now() {
            self.calls.count(true);
            return Err(KeepErr::Failed);
        }
        self.calls.count(false);
        match self.held(name) {
            Some(kept) => Ok(Some(copy_of(self.alloc, kept.as_slice())?)),
            None => {
                self.put(name, report)?;
                Ok(None)
            }
        }
    }

    fn all(&mut self) -> Result<KeptList, KeepErr>
        ensures failed { IsErrOf result KeepErr.Failed ↔ IsTrue (fails_now self.old.calls) }
        ensures says { IfOk result (λ list. map entry_of list ≡ finite_map.entries self.old.runs) }
        ensures runs { self.new.runs ≡ self.old.runs }
        ensures divergences { self.new.divergences ≡ self.old.divergences }
        ensures calls { self.new.calls ≡ after_call self.old.calls (is_failed (keeper_ending result)) }
        ensures closes { self.new.closes ≡ self.old.closes }
    {
        if self.calls.fails_now() {
            self.calls.count(true);
            return Err(KeepErr::Failed);
        }
        self.calls.count(false);
        Ok(self.stored()?)
    }

    #[tactic(auto, using(crate::proofs::Keeping::accepted_again))]
    fn accept(&mut self, name: &Txt, stamp: u32, class: u32) -> Result<(), KeepErr>
        ensures failed { IsErrOf result KeepErr.Failed ↔ IsTrue (fails_now self.old.calls) }
        ensures runs { self.new.runs ≡ self.old.runs }
        ensures divergences { self.new.divergences
            ≡ after_accepting (keeper_ending result) (name.now, (stamp, class)) self.old.divergences }
        ensures calls { self.new.calls ≡ after_call self.old.calls (is_failed (keeper_ending result)) }
        ensures closes { self.new.closes ≡ self.old.closes }
    {
        if self.calls.fails_now() {
            self.calls.count(true);
            return Err(KeepErr::Failed);
        }
        self.calls.count(false);
        let accepted = Accepted {
            name: name.copy()?,
            stamp,
            class,
        };
        if !self.has(&accepted) {
            self.put_accepted(accepted)?;
        }
        Ok(())
    }

    fn accepted(&mut self, name: &Txt) -> Result<AcceptList, KeepErr>
        ensures failed { IsErrOf result KeepErr.Failed ↔ IsTrue (fails_now self.old.calls) }
        ensures says { IfOk result (λ list. list ≡ accepts_of name.now self.old.divergences) }
        ensures runs { self.new.runs ≡ self.old.runs }
        ensures divergences { self.new.divergences ≡ self.old.divergences }
        ensures calls { self.new.calls ≡ after_call self.old.calls (is_failed (keeper_ending result)) }
        ensures closes { self.new.closes ≡ self.old.closes }
    {
        if self.calls.fails_now() {
            self.calls.count(true);
            return Err(KeepErr::Failed);
        }
        self.calls.count(false);
        Ok(self.accepts(name)?)
    }

    fn close(&mut self) -> Result<(), KeepErr>
        ensures failed { IsErrOf result KeepErr.Failed ↔ IsTrue (fails_now self.old.calls) }
        ensures runs { self.new.runs ≡ self.old.runs }
        ensures divergences { self.new.divergences ≡ self.old.divergences }
        ensures calls { self.new.calls ≡ after_call self.old.calls (is_failed (keeper_ending result)) }
        ensures closes { self.new.closes ≡ raised self.old.closes }
    {
        self.closes = self.closes.saturating_add(1);
        if self.calls.fails_now() {
            self.calls.count(true);
            return Err(KeepErr::Failed);
        }
        self.calls.count(false);
        Ok(())
    }
}

// ---- runs

// The report of the run with this name.
fn report_of<'a>(runs: &'a [Kept], name: &Txt) -> Option<&'a Bytes>
    ensures { option_copied result ≡ finite_map.find name_cmp name.now (map entry_of runs.now) }
{
    for kept in runs {
        if compare_names(name, &kept.name).is_eq() {
            return Some(&kept.report);
        }
    }
    None
}

// The place among the runs of one with this name that is new.
fn place_of_run(runs: &[Kept], name: &Txt) -> usize
    ensures limit { result ≤ length runs.now }
    ensures place { result ≡ place_of name_cmp name.now (map entry_of runs.now) }
{
    let mut place = 0;
    for kept in runs {
        if !compare_names(name, &kept.name).is_gt() {
            return place;
        }
        place += 1;
    }
    place
}

// Puts a run that is new at its place.
fn put_run(runs: &mut Vec<Kept>, kept: Kept) -> Result<(), Memory>
    requires { finite_map.find name_cmp kept.name (map entry_of runs.old.items) ≡ None }
    ensures ok { OnOk result (map entry_of runs.new.items ≡ finite_map.put name_cmp kept.name kept.report (map entry_of runs.old.items)) }
    ensures err { OnErr result (runs.new.items ≡ runs.old.items) }
{
    let place = place_of_run(runs.as_slice(), &kept.name);
    runs.insert(place, kept)?;
    Ok(())
}

// ---- accepted divergences

// Whether this divergence of this run was accepted.
fn is_among(all: &[Accepted], accepted: &Accepted) -> bool
    ensures { result ≡ list_any (λ other. eq_by_cmp divergence_cmp (divergence_of accepted.now).0 (divergence_of other).0) all.now }
{
    all.iter().any(|other| compare(accepted, other).is_eq())
}

// The place among the accepted divergences of one that is new.
fn place_of_accepted(all: &[Accepted], accepted: &Accepted) -> usize
    ensures limit { result ≤ length all.now }
    ensures place { result ≡ place_of divergence_cmp (divergence_of accepted.now).0 (map divergence_of all.now) }
{
    let mut place = 0;
    for other in all {
        if !compare(accepted, other).is_gt() {
            return place;
        }
        place += 1;
    }
    place
}

// Puts a divergence that is new at its place.
fn put_divergence(all: &mut Vec<Accepted>, accepted: Accepted) -> Result<(), Memory>
    requires { finite_map.find divergence_cmp (divergence_of accepted).0 (map divergence_of all.old.items) ≡ None }
    ensures ok { OnOk result
        (map divergence_of all.new.items ≡ finite_map.put divergence_cmp (divergence_of accepted).0 tt (map divergence_of all.old.items)) }
    ensures err { OnErr result (all.new.items ≡ all.old.items) }
{
    let place = place_of_accepted(all.as_slice(), &accepted);
    all.insert(place, accepted)?;
    Ok(())
}

// What was accepted of the run with this name.
fn accepts_of(alloc: Global, all: &[Accepted], name: &Txt) -> Result<AcceptList, Memory>
    ensures { IfOk result (λ list. list ≡ map accept_of (filter (λ d. eq_by_cmp name_cmp name.now d.0) (map (λ a. (divergence_of a).0) all.now))) }
{
    let mut list = List::new(alloc);
    for accepted in all {
        if compare_names(name, &accepted.name).is_eq() {
            list.push(Accept {
                stamp: accepted.stamp,
                class: accepted.class,
            })?;
        }
    }
    Ok(list)
}

// ---- how they compare

fn compare_names(a: &Txt, b: &Txt) -> Ordering
    ensures { result ≡ name_cmp a.now b.now }
{
    a.as_str().as_bytes().cmp(b.as_str().as_bytes())
}

fn compare(a: &Accepted, b: &Accepted) -> Ordering
    ensures { result ≡ divergence_cmp (divergence_of a.now).0 (divergence_of b.now).0 }
{
    compare_names(&a.name, &b.name).then(a.stamp.cmp(&b.stamp).then(a.class.cmp(&b.class)))
}

// The bytes, in memory of their own.
fn copy_of(alloc: Global, bytes: &[u8]) -> Result<Bytes, Memory>
    ensures { IfOk result (λ copy. copy ≡ bytes.now) }
{
    List::from_slice(alloc, bytes)
}
