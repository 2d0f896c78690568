ghost use Rattle.std.specs.Prelude.{◌≡◌, None};
ghost use Rattle.desk_files.specs.Outside.{counted};
ghost use Rattle.run_register.specs.Register.{keeper_ending, no_calls_kept, with_call, with_close};

use crate::tables;
use desk_values::{Bytes, Txt};
use run_register::{AcceptList, KeepErr, Keeper, KeptList};
use sqlite::{Alter, Connection, Error, ErrorCode};
use std::alloc::Global;
use std::marker::Model;

/// The register in two tables of a database, which it does not tell. Contracts see the count of faults: each refusal other
/// than want of memory is one.
#[derive(Drop)]
pub struct SqliteKeeper<S: Alter> {
    alloc: Global,
    connection: Connection<S>,
    faults: u64,
    closes: u64,
}

impl<S: Alter> Model for SqliteKeeper<S> {
    ghost use Rattle.run_register.specs.Register.{KeeperCounts};

    ghost Value = { KeeperCounts };

    ghost view = { λ a. record { faults = a.faults; closes = a.closes } };
}

impl<S: Alter> SqliteKeeper<S> {
    /// The register in this database, with no fault so far. The tables are made at the first call that needs them.
    pub fn new(alloc: Global, connection: Connection<S>) -> Self
        ensures { result ≡ no_calls_kept }
    {
        SqliteKeeper {
            alloc,
            connection,
            faults: 0,
            closes: 0,
        }
    }
}

impl<S: Alter> Keeper for SqliteKeeper<S> {
    ghost account = { λ s. record { runs = None; divergences = None; faults = s.faults; closes = s.closes } };

    fn get(&mut self, name: &Txt) -> Result<Option<Bytes>, KeepErr>
        ensures { self.new ≡ with_call (keeper_ending result) self.old }
    {
        let found = tables::find(&mut self.connection, name.as_str());
        counting(&mut self.faults, found)
    }

    fn add(&mut self, name: &Txt, report: &[u8]) -> Result<Option<Bytes>, KeepErr>
        ensures { self.new ≡ with_call (keeper_ending result) self.old }
    {
        let kept = tables::keep(&mut self.connection, name.as_str(), report);
        counting(&mut self.faults, kept)
    }

    fn all(&mut self) -> Result<KeptList, KeepErr>
        ensures { self.new ≡ with_call (keeper_ending result) self.old }
    {
        let runs = tables::all(self.alloc, &mut self.connection);
        counting(&mut self.faults, runs)
    }

    fn accept(&mut self, name: &Txt, stamp: u32, class: u32) -> Result<(), KeepErr>
        ensures { self.new ≡ with_call (keeper_ending result) self.old }
    {
        let done = tables::accept(&mut self.connection, name.as_str(), stamp, class);
        counting(&mut self.faults, done)
    }

    fn accepted(&mut self, name: &Txt) -> Result<AcceptList, KeepErr>
        ensures { self.new ≡ with_call (keeper_ending result) self.old }
    {
        let accepted = tables::accepted(self.alloc, &mut self.connection, name.as_str());
        counting(&mut self.faults, accepted)
    }

    /// Does nothing: the database is that of the caller.
    fn close(&mut self) -> Result<(), KeepErr>
        ensures { self.new ≡ with_close (keeper_ending result) self.old }
    {
        self.closes = self.closes.saturating_add(1);
        Ok(())
    }
}

/// What a call answers. All errors of the database but want of memory are faults, which are counted.
pub(crate) fn counting<T>(faults: &mut u64, answer: Result<T, Error>) -> Result<T, KeepErr>
    ensures { faults.new ≡ counted (keeper_ending result) faults.old }
{
    match answer {
        Ok(value) => Ok(value),
        Err(Error::SqliteFailure(ErrorCode::OutOfMemory)) => Err(KeepErr::Memory),
        Err(_) => {
            *faults = faults.saturating_add(1);
            Err(KeepErr::Failed)
        }
    }
}
