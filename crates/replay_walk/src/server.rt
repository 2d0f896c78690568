//! A server that does calls again, and what its commits wrote to each table.

ghost use Rattle.std.specs.Prelude.{◌≡◌, ◌+◌, ◌<◌, length, replicate, slice_index_or, [], ◌∷◌, IfOk, OnOk};
ghost use Rattle.desk_values.specs.declared.call.Reply.{Reply as GivenReply};
ghost use Rattle.server_words.specs.Clean.{is_clean};
ghost use Rattle.machine_model.specs.Footing.{IsFootingOf};
ghost use Rattle.server_words.specs.Rows.{IsRising};
ghost use Rattle.server_words.specs.Sound.{AreStanding};
ghost use Rattle.server_words.specs.State.{opening};
ghost use Rattle.server_words.specs.Step.{Gives, committed_in};
ghost use Rattle.machine_stores.specs.Tables.{ArePut, AreTold, AreWithin};
ghost use Rattle.twin_tables.specs.Ledger.{nothing_written};
ghost use Rattle.replay_walk.specs.Inside.Serving.{GoesOn, IsTelling};

use desk_schema::Start;
use desk_values::{Call, Copied, Image, Memory, Outcome};
use machine_model::Footing;
use std::alloc::Global;
use twin_tables::Ledger;
use txn_engine::Engine;

/// A server, and what was written to the first so many of its tables.
#[derive(Drop)]
pub struct Server {
    engine: Engine,
    ledgers: Vec<Ledger>,
}

impl Server {
    /// With nothing committed and nobody connected.
    pub fn load(alloc: Global, start: &Start, tables: usize) -> Result<Server, Memory>
        ensures engine { IfOk result (λ server. server.engine ≡ record { state = opening start.now; steps = 0 }) }
        ensures told { IfOk result (λ server. AreTold 0 start.now.rows [] server.ledgers.items) }
        ensures count { IfOk result (λ server. length server.ledgers.items ≡ tables) }
    {
        start.know_rules();
        let ledgers = ledgers_of(alloc, start.rows().as_slice(), tables)?;
        let engine = Engine::load(alloc, start)?;
        Ok(Server { engine, ledgers })
    }

    /// Executes a call of a session. What it commits is noted.
    pub fn step(&mut self, session: u32, call: &Call) -> Result<(), Memory>
        requires session { session < 64 }
        requires steps { self.old.engine.steps < 1048576 }
        requires telling { IsTelling self.old }
        ensures gives { OnOk result
            ((given : GivenReply) × Gives self.old.engine.state session call.now given self.new.engine.state) }
        ensures steps { OnOk result (self.new.engine.steps ≡ self.old.engine.steps + 1) }
        ensures telling { OnOk result (IsTelling self.new) }
        ensures goes_on { OnOk result (GoesOn self.old self.new) }
    {
        self.engine.know_reached();
        let reply = self.engine.step(session, call)?;
        self.note(&reply.outcome)?;
        Ok(())
    }

    // Notes what a call committed.
    fn note(&mut self, outcome: &Outcome) -> Result<(), Memory>
        requires { AreWithin (length self.old.engine.state.commits) self.old.ledgers.items }
        ensures engine { self.new.engine ≡ self.old.engine }
        ensures put { OnOk result
            (ArePut (length self.old.engine.state.commits) (committed_in outcome.now) self.old.ledgers.items self.new.ledgers.items) }
    {
        let number = self.engine.commits();
        match outcome {
            Outcome::Committed(images) => put_images(&mut self.ledgers, number, images.as_slice()),
            _ => Ok(()),
        }
    }

    /// Whether what a session sees of a table is what is committed.
    pub fn clean(&self, session: u32) -> bool
        ensures { result ≡ is_clean self.now.engine.state session }
    {
        self.engine.clean(session)
    }

    /// What a call of a session stands on whose table is this one, or that has none, but for the rows of the table.
    pub fn footing(&self, session: u32, table: Option<u32>) -> Result<Footing, Memory>
        requires { session < 64 }
        ensures footing { IfOk result (IsFootingOf self.now.engine.state session table) }
        ensures changes_rise { IfOk result (λ footing. IsRising footing.own.changes) }
    {
        self.engine.footing(session, table)
    }

    /// How many changes were written to a table.
    pub fn written(&self, table: usize) -> usize
        requires { table < length self.now.ledgers.items }
        ensures { result ≡ length (slice_index_or self.now.ledgers.items table nothing_written).list }
    {
        self.ledger(table).changes().len()
    }

    /// What was written to a table.
    pub fn ledger(&self, table: usize) -> &Ledger
        requires { table < length self.now.ledgers.items }
        ensures { result.now ≡ slice_index_or self.now.ledgers.items table nothing_written }
    {
        &self.ledgers[table]
    }
}

// What was written to the first so many tables, of which these are the rows before all commits.
fn ledgers_of(alloc: Global, images: &[Image], count: usize) -> Result<Vec<Ledger>, Memory>
    requires { AreStanding images.now }
    ensures told { IfOk result (λ ledgers. AreTold 0 images.now [] ledgers.items) }
    ensures count { IfOk result (λ ledgers. length ledgers.items ≡ count) }
{
    let mut ledgers = empty_ledgers(alloc, count)?;
    put_images(&mut ledgers, 0, images)?;
    Ok(ledgers)
}

// So many tables to which nothing was written.
fn empty_ledgers(alloc: Global, count: usize) -> Result<Vec<Ledger>, Memory>
    ensures { IfOk result (λ ledgers. ledgers.items ≡ replicate count nothing_written) }
{
    let mut ledgers = Vec::new(alloc);
    for _ in 0..count {
        ledgers.push(no_ledger(alloc))?;
    }
    Ok(ledgers)
}

fn no_ledger(alloc: Global) -> Ledger
    ensures { result ≡ nothing_written }
{
    Ledger::new(alloc)
}

// Puts images of a commit.
fn put_images(ledgers: &mut [Ledger], number: u64, images: &[Image]) -> Result<(), Memory>
    requires { AreWithin number ledgers.old }
    ensures { OnOk result (ArePut number images.now ledgers.old ledgers.new) }
{
    for image in images {
        put_image(ledgers, number, image.copy()?)?;
    }
    Ok(())
}

// Puts an image to its table.
fn put_image(ledgers: &mut [Ledger], number: u64, image: Image) -> Result<(), Memory>
    requires { AreWithin number ledgers.old }
    ensures { OnOk result (ArePut number (image ∷ []) ledgers.old ledgers.new) }
{
    let at = image.table as usize;
    if at >= ledgers.len() {
        return Ok(());
    }
    ledgers[at].put(number, image)?;
    Ok(())
}
