//! The captured server again, beside a replay: it goes on just past the calls that are asked for, and sets aside what calls met that differ.

ghost use Rattle.std.specs.Prelude.{◌≡◌, ◌≢◌, ◌+◌, ◌<◌, ◌≤◌, ◌++◌, [], ◌∷◌, ℕ, None, Some, false, length, slice_index_or, true, IfOk, OnOk};
ghost use Rattle.std.specs.BTreeMap.{get};
ghost use Rattle.std.specs.Ordering.{nat_cmp};
ghost use Rattle.desk_values.specs.declared.call.Reply.{Reply as GivenReply};
ghost use Rattle.server_words.specs.Clean.{is_clean};
ghost use Rattle.server_words.specs.Step.{Gives};
ghost use Rattle.replay_job.specs.Job.{IsReplayable, seen};
ghost use Rattle.replay_walk.specs.declared.behind.Met.{Met as SetAside};
ghost use Rattle.replay_walk.specs.Walked.{marked_at};
ghost use Rattle.twin_tables.specs.Ledger.{nothing_written};
ghost use Rattle.replay_walk.specs.Inside.Serving.{GoesOn, IsTelling};
ghost use Rattle.replay_walk.specs.Inside.Passing.{HasBegunBehind, HasTaken, IsBehind, IsMet, KeepsAside};

use crate::server::Server;
use desk_values::{Captured, Memory};
use machine_model::{Footing, table_of_call};
use replay_job::Job;
use std::alloc::Global;
use std::collections::BTreeMap;
use twin_tables::Ledger;

/// What a call met, but for the rows of its table.
#[derive(Drop)]
pub struct Met {
    /// The number of its table, where it is on one.
    pub table: Option<u32>,
    /// What it stood on.
    pub footing: Footing,
}

/// The captured server, just before a call.
#[derive(Drop)]
pub struct Behind {
    server: Server,
    // the stamp of that call
    at: u32,
    // of each call before it whether its session was clean
    clean: Vec<bool>,
    // what those calls met that differ and were not asked for yet
    aside: BTreeMap<u32, Met>,
}

impl Behind {
    /// Before the first call, with what is written to the first so many tables.
    pub fn new(alloc: Global, job: &Job, tables: usize) -> Result<Behind, Memory>
        ensures { IfOk result (HasBegunBehind (seen job.now) tables) }
    {
        Ok(Behind {
            server: Server::load(alloc, &job.start, tables)?,
            at: 0,
            clean: Vec::new(alloc),
            aside: BTreeMap::new(alloc),
        })
    }

    /// Goes past a call, and past all before it. `differs` says of each call whether what it met is asked for.
    pub fn come_past(
        &mut self,
        alloc: Global,
        job: &Job,
        differs: &[bool],
        stamp: u32,
    ) -> Result<(), Memory>
        requires replayable { IsReplayable (seen job.now) }
        requires differs { length differs.now ≡ length (seen job.now).calls }
        requires stamp { stamp < length (seen job.now).calls }
        requires behind { IsBehind (seen job.now) self.old }
        ensures behind { OnOk result (IsBehind (seen job.now) self.new) }
        ensures past { OnOk result (stamp < self.new.at) }
        ensures goes_on { OnOk result (GoesOn self.old.server self.new.server) }
        ensures kept { OnOk result ((k : ℕ) → KeepsAside differs.now self.old self.new k) }
    {
        while self.at <= stamp {
            self.pass(alloc, job, differs)?;
        }
        Ok(())
    }

    // Goes past the next call.
    fn pass(&mut self, alloc: Global, job: &Job, differs: &[bool]) -> Result<(), Memory>
        requires replayable { IsReplayable (seen job.now) }
        requires differs { length differs.now ≡ length (seen job.now).calls }
        requires within { self.old.at < length (seen job.now).calls }
        requires behind { IsBehind (seen job.now) self.old }
        ensures behind { OnOk result (IsBehind (seen job.now) self.new) }
        ensures at { OnOk result (self.new.at ≡ self.old.at + 1) }
        ensures goes_on { OnOk result (GoesOn self.old.server self.new.server) }
        ensures kept { OnOk result ((k : ℕ) → KeepsAside differs.now self.old self.new k) }
    {
        let call = &job.calls.as_slice()[self.at as usize];
        self.note(alloc, job, call, differs[self.at as usize])?;
        self.go_on(call)?;
        Ok(())
    }

    // The server does the next call again.
    fn go_on(&mut self, call: &Captured) -> Result<(), Memory>
        requires session { call.now.session < 64 }
        requires few { self.old.at < 100000 }
        requires steps { self.old.server.engine.steps ≡ self.old.at }
        requires telling { IsTelling self.old.server }
        ensures gives { OnOk result
            ((given : GivenReply) × Gives self.old.server.engine.state call.now.session call.now.call given self.new.server.engine.state) }
        ensures steps { OnOk result (self.new.server.engine.steps ≡ self.old.server.engine.steps + 1) }
        ensures telling { OnOk result (IsTelling self.new.server) }
        ensures goes_on { OnOk result (GoesOn self.old.server self.new.server) }
        ensures at { OnOk result (self.new.at ≡ self.old.at + 1) }
        ensures clean { self.new.clean ≡ self.old.clean }
        ensures aside { self.new.aside ≡ self.old.aside }
    {
        self.server.step(call.session, &call.call)?;
        self.at += 1;
        Ok(())
    }

    // Notes whether the session of the next call is clean, and, where it differs, what the call meets.
    fn note(
        &mut self,
        alloc: Global,
        job: &Job,
        call: &Captured,
        differs: bool,
    ) -> Result<(), Memory>
        requires { call.now.session < 64 }
        ensures server { self.new.server ≡ self.old.server }
        ensures at { self.new.at ≡ self.old.at }
        ensures clean { OnOk result
            (self.new.clean.items ≡ self.old.clean.items ++ is_clean self.old.server.engine.state call.now.session ∷ []) }
        ensures others { OnOk result ((k : ℕ) → k ≢ call.now.stamp → get nat_cmp self.new.aside k ≡ get nat_cmp self.old.aside k) }
        ensures none { OnOk result (differs ≡ false → (k : ℕ) → get nat_cmp self.new.aside k ≡ get nat_cmp self.old.aside k) }
        ensures here { OnOk result
            (differs ≡ true
            → (met : SetAside) × IsMet (seen job.now) self.old.server.engine.state call.now met
            × (get nat_cmp self.new.aside call.now.stamp ≡ Some met)) }
    {
        let clean = self.server.clean(call.session);
        self.clean.push(clean)?;
        if !differs {
            return Ok(());
        }
        let met = self.meets(alloc, job, call)?;
        put(&mut self.aside, call.stamp, met)?;
        Ok(())
    }

    // What the next call meets.
    fn meets(&self, alloc: Global, job: &Job, call: &Captured) -> Result<Met, Memory>
        requires { call.now.session < 64 }
        ensures { IfOk result (IsMet (seen job.now) self.now.server.engine.state call.now) }
    {
        let table = table_of_call(alloc, job.start.schema(), &call.call)?;
        let footing = self.server.footing(call.session, table)?;
        Ok(Met { table, footing })
    }

    /// Whether a call's session was clean, where the server went past it.
    pub fn was_clean(&self, stamp: u32) -> bool
        ensures { result ≡ marked_at self.now.clean.items stamp }
    {
        match self.clean.get(stamp as usize) {
            Some(clean) => *clean,
            None => false,
        }
    }

    /// Takes out what a call met, where it is set aside.
    pub fn take_met(&mut self, stamp: u32) -> Option<Met>
        ensures taken { result ≡ get nat_cmp self.old.aside stamp }
        ensures rest { HasTaken stamp self.old self.new }
    {
        take(&mut self.aside, stamp)
    }

    /// How many changes were written to a table.
    pub fn written(&self, table: usize) -> usize
        requires { table < length self.now.server.ledgers.items }
        ensures { result ≡ length (slice_index_or self.now.server.ledgers.items table nothing_written).list }
    {
        self.server.written(table)
    }

    /// What was written to a table.
    pub fn ledger(&self, table: usize) -> &Ledger
        requires { table < length self.now.server.ledgers.items }
        ensures { result.now ≡ slice_index_or self.now.server.ledgers.items table nothing_written }
    {
        self.server.ledger(table)
    }
}

// Takes out what is set aside for a stamp, if there is something.
fn take(aside: &mut BTreeMap<u32, Met>, stamp: u32) -> Option<Met>
    ensures taken { result ≡ get nat_cmp aside.old stamp }
    ensures gone { get nat_cmp aside.new stamp ≡ None }
    ensures others { (k : ℕ) → k ≢ stamp → get nat_cmp aside.new k ≡ get nat_cmp aside.old k }
{
    aside.remove(&stamp)
}

// Sets aside what the call with a stamp met.
fn put(aside: &mut BTreeMap<u32, Met>, stamp: u32, met: Met) -> Result<(), Memory>
    ensures here { OnOk result (get nat_cmp aside.new stamp ≡ Some met) }
    ensures others { OnOk result ((k : ℕ) → k ≢ stamp → get nat_cmp aside.new k ≡ get nat_cmp aside.old k) }
{
    aside.insert(stamp, met)?;
    Ok(())
}
