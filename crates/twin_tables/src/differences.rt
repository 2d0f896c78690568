//! Which rows of a table may differ between the two servers, as a session meets them: it moves on with what the session asks.

ghost use Rattle.std.specs.Prelude.{◌≡◌, ◌↔◌, ◌+◌, ◌<◌, ◌≤◌, true, false, length, slice_get, IfOk, IsTrue, None, OnOk, Some};
ghost use Rattle.twin_tables.specs.Differences.{AgreeBeside, AreKept, AreSides, Follows, HasBegun, both_of, others_of, own_of};
ghost use Rattle.twin_tables.specs.Inside.Judging.{AreCovered, BeginsBefore, IsJudgedOn, IsNextOf, StandsAs, next_due, row_due};
ghost use Rattle.twin_tables.specs.Ledger.{changes_of};

use crate::judging::{Sides, Suspect, Verdict, judge, know_map};
use crate::ledger::Change;
use desk_values::Memory;
use std::alloc::Global;

/// Up to where the changes of both servers to a table are known to agree, as one session meets them, and which rows were passed although they may
/// differ, since changes of the session lay over them.
#[derive(Drop)]
pub struct Differences {
    // The commits at which it was asked last.
    captured_at: u64,
    replayed_at: u64,
    // How many changes of each server were passed.
    captured_place: usize,
    replayed_place: usize,
    kept: Vec<Suspect>,
}

impl Differences {
    /// Behind so many changes of both, which are those of one start. Takes no memory.
    pub fn new(alloc: Global, captured: usize, replayed: usize) -> Differences
        ensures { HasBegun captured replayed result }
    {
        Differences {
            captured_at: 0,
            replayed_at: 0,
            captured_place: captured,
            replayed_place: replayed,
            kept: Vec::new(alloc),
        }
    }

    /// Whether the table has the same rows on both sides, but for ids, beside those that the sessions have changed. Only rows that a commit wrote are
    /// looked at, and of these each is judged once, but for those that the session's changes cover, and for the one at which it stops.
    pub fn agree(&mut self, with: Sides<'_>) -> Result<bool, Memory>
        requires sides { AreSides with }
        requires follows { Follows with.map.now.pairs with.captured.now.list with.replayed.now.list self.old }
        ensures told { IfOk result
            (λ agree. IsTrue agree ↔ AgreeBeside (both_of with.entry) with.entry.table (own_of with.entry) (others_of with.entry)) }
        ensures follows { OnOk result
            (Follows with.entry.map.now.pairs with.entry.captured.now.list with.entry.replayed.now.list self.new) }
        ensures captured_at { OnOk result (self.new.captured_at ≡ with.entry.captured_at) }
        ensures replayed_at { OnOk result (self.new.replayed_at ≡ with.entry.replayed_at) }
    {
        self.go_to(with);
        if !self.judge_kept(with)? {
            return Ok(false);
        }
        if !self.judge_captured(with)? {
            return Ok(false);
        }
        self.judge_replayed(with)
    }

    // Goes to where it is asked.
    fn go_to(&mut self, with: Sides<'_>)
        requires { Follows with.map.now.pairs with.captured.now.list with.replayed.now.list self.old }
        ensures kept { AreKept (both_of with.entry) self.new }
        ensures captured_at { self.new.captured_at ≡ with.entry.captured_at }
        ensures replayed_at { self.new.replayed_at ≡ with.entry.replayed_at }
    {
        know_map(with.map);
        self.begin_before(with.captured_at, with.replayed_at);
        self.captured_at = with.captured_at;
        self.replayed_at = with.replayed_at;
    }

    // Where it stands behind one of these commits it begins anew.
    fn begin_before(&mut self, captured_at: u64, replayed_at: u64)
        ensures { BeginsBefore captured_at replayed_at self.old self.new }
    {
        if self.stands_by(captured_at, replayed_at) {
            return;
        }
        self.begin_anew();
    }

    // Whether it stands at no later commits than these.
    fn stands_by(&self, captured_at: u64, replayed_at: u64) -> bool
        ensures { result ≡ true → (self.now.captured_at ≤ captured_at) × (self.now.replayed_at ≤ replayed_at) }
    {
        self.captured_at <= captured_at && self.replayed_at <= replayed_at
    }

    // All that was ever written is a suspect.
    fn begin_anew(&mut self)
        ensures { HasBegun 0 0 self.new }
    {
        self.captured_at = 0;
        self.replayed_at = 0;
        self.captured_place = 0;
        self.replayed_place = 0;
        self.kept.clear();
    }

    // Judges what is kept, up to one that is apart.
    fn judge_kept(&mut self, with: Sides<'_>) -> Result<bool, Memory>
        requires sides { AreSides with }
        requires kept { AreKept (both_of with) self.old }
        ensures kept { OnOk result (AreKept (both_of with.entry) self.new) }
        ensures stands { OnOk result (StandsAs self.old self.new) }
        ensures covered { IfOk result
            (λ agree. agree ≡ true → AreCovered with.entry.table (own_of with.entry) (others_of with.entry) self.new.kept.items) }
        ensures apart { IfOk result
            (λ agree. agree ≡ false → ¬ AgreeBeside (both_of with.entry) with.entry.table (own_of with.entry) (others_of with.entry)) }
    {
        let mut next = 0;
        while let Some(suspect) = self.suspect_at(next) {
            if !self.judge_one(with, suspect, &mut next)? {
                return Ok(false);
            }
        }
        Ok(true)
    }

    // What is kept at a place.
    fn suspect_at(&self, place: usize) -> Option<Suspect>
        ensures { result ≡ slice_get self.now.kept.items place }
    {
        self.kept.get(place).copied()
    }

    // Judges the suspect that is kept at a place: it is let go where it agrees, or the next place comes next, unless it is apart.
    fn judge_one(
        &mut self,
        with: Sides<'_>,
        suspect: Suspect,
        next: &mut usize,
    ) -> Result<bool, Memory>
        requires sides { AreSides with }
        requires kept { AreKept (both_of with) self.old }
        requires at { slice_get self.old.kept.items next.old ≡ Some suspect }
        ensures kept { OnOk result (AreKept (both_of with.entry) self.new) }
        ensures stands { OnOk result (StandsAs self.old self.new) }
        ensures judged { IfOk result
            (λ agree. agree ≡ true
            → IsJudgedOn with.entry.table (own_of with.entry) (others_of with.entry) next.old next.new self.old self.new) }
        ensures apart { IfOk result
            (λ agree. agree ≡ false → ¬ AgreeBeside (both_of with.entry) with.entry.table (own_of with.entry) (others_of with.entry)) }
    {
        know_map(with.map);
        match judge(with, suspect)? {
            Verdict::Agrees => {
                self.kept.remove(*next);
                Ok(true)
            }
            Verdict::Covered => {
                *next = self.behind(*next);
                Ok(true)
            }
            Verdict::Apart => Ok(false),
        }
    }

    // The place behind one at which something is kept.
    fn behind(&self, place: usize) -> usize
        requires { place < length self.now.kept.items }
        ensures { result ≡ place + 1 }
    {
        if place < self.kept.len() {
            place + 1
        } else {
            place
        }
    }

    // Judges what the captured server wrote since, up to a row that is apart.
    fn judge_captured(&mut self, with: Sides<'_>) -> Result<bool, Memory>
        requires sides { AreSides with }
        requires kept { AreKept (both_of with) self.old }
        requires covered { AreCovered with.table (own_of with) (others_of with) self.old.kept.items }
        ensures kept { OnOk result (AreKept (both_of with.entry) self.new) }
        ensures stands { OnOk result (StandsAs self.old self.new) }
        ensures covered { OnOk result
            (AreCovered with.entry.table (own_of with.entry) (others_of with.entry) self.new.kept.items) }
        ensures done { IfOk result
            (λ agree. agree ≡ true
            → next_due with.entry.captured_at (slice_get (changes_of with.entry.captured.now.list) self.new.captured_place) ≡ None) }
        ensures apart { IfOk result
            (λ agree. agree ≡ false → ¬ AgreeBeside (both_of with.entry) with.entry.table (own_of with.entry) (others_of with.entry)) }
    {
        let written = with.captured.changes();
        while let Some(row) = next_due(written, self.captured_place, with.captured_at) {
            if !self.pass_captured(with, row)? {
                return Ok(false);
            }
        }
        Ok(true)
    }

    // Judges what the replayed server wrote since, up to a row that is apart.
    fn judge_replayed(&mut self, with: Sides<'_>) -> Result<bool, Memory>
        requires sides { AreSides with }
        requires kept { AreKept (both_of with) self.old }
        requires covered { AreCovered with.table (own_of with) (others_of with) self.old.kept.items }
        requires done { next_due with.captured_at (slice_get (changes_of with.captured.now.list) self.old.captured_place) ≡ None }
        ensures kept { OnOk result (AreKept (both_of with.entry) self.new) }
        ensures stands { OnOk result (StandsAs self.old self.new) }
        ensures told { IfOk result
            (λ agree. IsTrue agree ↔ AgreeBeside (both_of with.entry) with.entry.table (own_of with.entry) (others_of with.entry)) }
    {
        know_map(with.map);
        with.captured.know_rise();
        let written = with.replayed.changes();
        while let Some(row) = next_due(written, self.replayed_place, with.replayed_at) {
            if !self.pass_replayed(with, row)? {
                return Ok(false);
            }
        }
        Ok(true)
    }

    // Goes past the next change of the captured server, which is to this row, unless that is apart.
    fn pass_captured(&mut self, with: Sides<'_>, row: u64) -> Result<bool, Memory>
        requires sides { AreSides with }
        requires kept { AreKept (both_of with) self.old }
        requires next { IsNextOf with.captured.now.list self.old.captured_place with.captured_at row }
        ensures kept { OnOk result (AreKept (both_of with.entry) self.new) }
        ensures stands { OnOk result (StandsAs self.old self.new) }
        ensures covered { OnOk result
            (AreCovered with.entry.table (own_of with.entry) (others_of with.entry) self.old.kept.items
            → AreCovered with.entry.table (own_of with.entry) (others_of with.entry) self.new.kept.items) }
        ensures place { IfOk result (λ agree. agree ≡ true → self.new.captured_place ≡ self.old.captured_place + 1) }
        ensures apart { IfOk result
            (λ agree. agree ≡ false → ¬ AgreeBeside (both_of with.entry) with.entry.table (own_of with.entry) (others_of with.entry)) }
    {
        know_map(with.map);
        let next = place_behind(with.captured.changes(), self.captured_place);
        match judge(with, Suspect::Captured(row))? {
            Verdict::Agrees => {
                self.captured_place = next;
                Ok(true)
            }
            Verdict::Covered => {
                self.kept.push(Suspect::Captured(row))?;
                self.captured_place = next;
                Ok(true)
            }
            Verdict::Apart => Ok(false),
        }
    }

    // Goes past the next change of the replayed server, which is to this row, unless that is apart.
    fn pass_replayed(&mut self, with: Sides<'_>, row: u64) -> Result<bool, Memory>
        requires sides { AreSides with }
        requires kept { AreKept (both_of with) self.old }
        requires next { IsNextOf with.replayed.now.list self.old.replayed_place with.replayed_at row }
        ensures kept { OnOk result (AreKept (both_of with.entry) self.new) }
        ensures stands { OnOk result (StandsAs self.old self.new) }
        ensures covered { OnOk result
            (AreCovered with.entry.table (own_of with.entry) (others_of with.entry) self.old.kept.items
            → AreCovered with.entry.table (own_of with.entry) (others_of with.entry) self.new.kept.items) }
        ensures place { IfOk result (λ agree. agree ≡ true → self.new.replayed_place ≡ self.old.replayed_place + 1) }
        ensures captured { OnOk result (self.new.captured_place ≡ self.old.captured_place) }
        ensures apart { IfOk result
            (λ agree. agree ≡ false → ¬ AgreeBeside (both_of with.entry) with.entry.table (own_of with.entry) (others_of with.entry)) }
    {
        know_map(with.map);
        let next = place_behind(with.replayed.changes(), self.replayed_place);
        match judge(with, Suspect::Replayed(row))? {
            Verdict::Agrees => {
                self.replayed_place = next;
                Ok(true)
            }
            Verdict::Covered => {
                self.kept.push(Suspect::Replayed(row))?;
                self.replayed_place = next;
                Ok(true)
            }
            Verdict::Apart => Ok(false),
        }
    }
}

// The row that was written at a place, where it was by a commit up to this one.
fn next_due(written: &[Change], place: usize, number: u64) -> Option<u64>
    ensures { result ≡ next_due number (slice_get written.now place) }
{
    match written.get(place) {
        Some(change) => row_due(*change, number),
        None => None,
    }
}

fn row_due(change: Change, number: u64) -> Option<u64>
    ensures { result ≡ row_due number change }
{
    if change.number <= number {
        Some(change.row)
    } else {
        None
    }
}

// The place behind one at which something was written.
fn place_behind(written: &[Change], place: usize) -> usize
    requires { place < length written.now }
    ensures { result ≡ place + 1 }
{
    if place < written.len() {
        place + 1
    } else {
        place
    }
}
