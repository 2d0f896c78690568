//! The server of a replay and the captured one beside it, with what is known of the differences of their tables.

ghost use Rattle.std.specs.Prelude.{◌≡◌, ◌↔◌, ◌<◌, ◌≤◌, ◌+◌, ◌++◌, ◌&&◌, false, true, IfOk, IsTrue, OnOk, length, is_some, slice_index_or};
ghost use Rattle.divergence.specs.Class.{is_write_divergence};
ghost use Rattle.id_pairs.specs.Carrying.Carried.{carried_row};
ghost use Rattle.id_pairs.specs.Pairs.{HasNoIdTwice, IsIdMap, learnt};
ghost use Rattle.server_words.specs.Clean.{is_clean};
ghost use Rattle.remap_ids.specs.Sent.{HasLowIds, sent as sent_call};
ghost use Rattle.replay_history.specs.Capture.{binds_of};
ghost use Rattle.replay_job.specs.Job.{IsReplayable, seen};
ghost use Rattle.twin_tables.specs.declared.differences.Differences.{Differences as Kept};
ghost use Rattle.twin_tables.specs.Differences.{AgreeBeside, AreSides, Follows, both_of, others_of, own_of};
ghost use Rattle.replay_walk.specs.Walked.{marked_at};
ghost use Rattle.replay_walk.specs.Inside.Passing.{AreBegun, AreBoth, AreKept, HasDone, HasMoreAlike, HaveBegun, HaveCome, HaveTold, IsAskedAt, IsSidesOf, IsToldOn, IsToldTwin, MayTell, MayTellOf, MayTellOn, stage_of};

use crate::behind::{Behind, Met};
use crate::quiet::{has_images, is_write_divergence};
use crate::server::Server;
use crate::standing::{twin_footings, twin_held};
use crate::twins::are_twin_calls;
use desk_values::{Call, Captured, Memory, Reply};
use machine_model::Footing;
use remap_ids::{Id, IdMap};
use replay_job::Job;
use std::alloc::Global;
use twin_tables::{Differences, Ledger, Sides};

/// Both servers, and the map of ids.
#[derive(Drop)]
pub struct Servers {
    replay: Server,
    map: IdMap,
    behind: Behind,
    // of each table one for each session
    differences: Vec<Differences>,
}

impl Servers {
    /// Before the first event, where so many tables are looked at.
    pub fn new(alloc: Global, job: &Job, tables: usize) -> Result<Servers, Memory>
        ensures { IfOk result (HaveBegun (seen job.now) tables) }
    {
        let behind = Behind::new(alloc, job, tables)?;
        let replay = Server::load(alloc, &job.target, tables)?;
        let differences = all_alike(alloc, &behind, &replay, tables)?;
        Ok(Servers {
            replay,
            map: IdMap::from_start(alloc, &job.start)?,
            behind,
            differences,
        })
    }

    /// What is sent in the place of a call.
    pub fn send(&self, job: &Job, call: &Call) -> Result<Call, Memory>
        requires { HasLowIds call.now }
        ensures { IfOk result (λ sent. sent ≡ sent_call self.now.map.pairs (seen job.now).remap call.now) }
    {
        self.map.send(&job.remap, call)
    }

    /// The captured server goes past a call, and past all before it. `differs` says of each call whether what it met is asked for.
    pub fn come_past(
        &mut self,
        alloc: Global,
        job: &Job,
        differs: &[bool],
        stamp: u32,
    ) -> Result<(), Memory>
        requires replayable { IsReplayable (seen job.now) }
        requires differs { length differs.now ≡ length (seen job.now).calls }
        requires stamp { stamp < length (seen job.now).calls }
        requires both { AreBoth (seen job.now) self.old }
        ensures { OnOk result (HaveCome (seen job.now) differs.now stamp self.old self.new) }
    {
        self.behind.come_past(alloc, job, differs, stamp)?;
        Ok(())
    }

    /// Whether a call's session is clean, and was in the capture, where the captured server went past the call; and each id among its binds has an
    /// image.
    pub fn is_open(&self, call: &Captured) -> bool
        ensures { result ≡ (marked_at self.now.behind.clean.items call.now.stamp
            && (is_clean self.now.replay.engine.state call.now.session && is_some (carried_row self.now.map.pairs (binds_of call.now.call)))) }
    {
        self.behind.was_clean(call.stamp)
            && self.replay.clean(call.session)
            && has_images(&self.map, &call.call)
    }

    /// Whether a call that is answered next meets what it met, which is set aside.
    pub fn is_twin(
        &mut self,
        alloc: Global,
        job: &Job,
        call: &Captured,
        sent: &Call,
    ) -> Result<bool, Memory>
        requires may { MayTell (seen job.now) call.now self.old }
        requires sent { sent.now ≡ sent_call self.old.map.pairs (seen job.now).remap call.now.call }
        ensures told { IfOk result (IsToldTwin (seen job.now) call.now (stage_of self.old)) }
        ensures rest { OnOk result (HaveTold (seen job.now) call.now.stamp self.old self.new) }
    {
        match self.behind.take_met(call.stamp) {
            Some(met) => self.is_twin_of(alloc, job, call, sent, &met),
            None => Ok(false),
        }
    }

    // Whether it meets this, but for ids. The rows of its table are looked at last.
    fn is_twin_of(
        &mut self,
        alloc: Global,
        job: &Job,
        call: &Captured,
        sent: &Call,
        met: &Met,
    ) -> Result<bool, Memory>
        requires may { MayTellOf (seen job.now) call.now met.now self.old }
        requires sent { sent.now ≡ sent_call self.old.map.pairs (seen job.now).remap call.now.call }
        ensures told { IfOk result (IsToldTwin (seen job.now) call.now (stage_of self.old)) }
        ensures rest { OnOk result (HaveTold (seen job.now) call.now.stamp self.old self.new) }
    {
        know_map(&self.map);
        if !are_twin_calls(job.start.schema(), &self.map, &call.call, sent)? {
            return Ok(false);
        }
        let meets = self.replay.footing(call.session, met.table)?;
        if !twin_footings(alloc, &self.map, &met.footing, &meets)? {
            return Ok(false);
        }
        match met.table {
            Some(table) => self.is_twin_on(alloc, call.session, table, &met.footing, &meets),
            None => Ok(true),
        }
    }

    // Whether the rows of a table are what they were as a session sees them, but for ids, and so those of them that others hold.
    fn is_twin_on(
        &mut self,
        alloc: Global,
        session: u32,
        table: u32,
        met: &Footing,
        meets: &Footing,
    ) -> Result<bool, Memory>
        requires { MayTellOn session table met.now meets.now self.old }
        ensures told { IfOk result (IsToldOn table met.now meets.now self.old) }
        ensures replay { self.new.replay ≡ self.old.replay }
        ensures map { self.new.map ≡ self.old.map }
        ensures behind { self.new.behind ≡ self.old.behind }
        ensures kept { OnOk result (AreKept self.new) }
    {
        know_map(&self.map);
        let captured = self.behind.ledger(table as usize);
        let replayed = self.replay.ledger(table as usize);
        let with = sides_of(&self.map, table, captured, met, replayed, meets);
        if !twin_held(alloc, with, &met.held_rows, &meets.held_rows)? {
            return Ok(false);
        }
        let place = table as usize * 64 + session as usize;
        agree_at(&mut self.differences, place, with)
    }

    /// The server of the replay does a call again that was answered so, and the ids of its two replies are learnt.
    pub fn execute(
        &mut self,
        job: &Job,
        call: &Captured,
        sent: &Call,
        reply: &Reply,
    ) -> Result<(), Memory>
        requires both { AreBoth (seen job.now) self.old }
        requires session { call.now.session < 64 }
        requires room { self.old.replay.engine.steps < 1048576 }
        requires ids { HasNoIdTwice (self.old.map.pairs ++ learnt call.now.reply reply.now) }
        requires sent { sent.now ≡ sent_call self.old.map.pairs (seen job.now).remap call.now.call }
        ensures { OnOk result (HasDone (seen job.now) reply.now call.now self.old self.new) }
    {
        self.replay.step(call.session, sent)?;
        self.map.learn(&call.reply, reply)?;
        Ok(())
    }

    /// Whether a call that was answered differs, and is a commit in the capture or in the replay.
    pub fn diverges(
        &self,
        alloc: Global,
        captured: &Reply,
        replayed: &Reply,
    ) -> Result<bool, Memory>
        ensures { IfOk result (λ diverges. diverges ≡ is_write_divergence self.now.map.pairs captured.now replayed.now) }
    {
        is_write_divergence(alloc, &self.map, captured, replayed)
    }
}

// What is compared of a table, where two calls stand on this.
fn sides_of<'a>(
    map: &'a IdMap,
    table: u32,
    captured: &'a Ledger,
    met: &'a Footing,
    replayed: &'a Ledger,
    meets: &'a Footing,
) -> Sides<'a>
    ensures { IsSidesOf map.now table captured.now met.now replayed.now meets.now result }
{
    Sides {
        map,
        table,
        captured,
        captured_at: met.commits,
        own: met.own.changes.as_slice(),
        replayed,
        replayed_at: meets.commits,
        others: meets.own.changes.as_slice(),
    }
}

// Asks what is kept at a place.
fn agree_at(
    differences: &mut Vec<Differences>,
    place: usize,
    with: Sides<'_>,
) -> Result<bool, Memory>
    requires place { place < length differences.old.items }
    requires sides { AreSides with }
    requires follows { (d : Kept) → Follows with.map.now.pairs with.captured.now.list with.replayed.now.list (slice_index_or differences.old.items place d) }
    ensures told { IfOk result
        (λ agree. IsTrue agree ↔ AgreeBeside (both_of with.entry) with.entry.table (own_of with.entry) (others_of with.entry)) }
    ensures kept { OnOk result (IsAskedAt place with.entry differences.old.items differences.new.items) }
{
    differences[place].agree(with)
}

// For each table and session that nothing was written since the start.
fn all_alike(
    alloc: Global,
    behind: &Behind,
    replay: &Server,
    tables: usize,
) -> Result<Vec<Differences>, Memory>
    requires captured { tables ≤ length behind.now.server.ledgers.items }
    requires replayed { tables ≤ length replay.now.ledgers.items }
    ensures { IfOk result (λ differences. AreBegun behind.now.server.ledgers.items replay.now.ledgers.items tables differences.items) }
{
    let mut differences = Vec::new(alloc);
    for table in 0..tables {
        add_alike(
            alloc,
            behind.written(table),
            replay.written(table),
            &mut differences,
        )?;
    }
    Ok(differences)
}

// Of one table for each session.
fn add_alike(
    alloc: Global,
    captured: usize,
    replayed: usize,
    differences: &mut Vec<Differences>,
) -> Result<(), Memory>
    ensures { OnOk result (HasMoreAlike captured replayed 64 differences.old.items differences.new.items) }
{
    for _ in 0..64_usize {
        differences.push(Differences::new(alloc, captured, replayed))?;
    }
    Ok(())
}

// A map of ids is one-to-one.
fn know_map(map: &IdMap)
    ensures { IsIdMap map.now.pairs }
{
    let _image = map.image(Id::Row(0));
}
