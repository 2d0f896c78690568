ghost use Rattle.std.specs.Prelude.{◌≡◌, None};
ghost use Rattle.run_register.specs.Register.{keeper_ending, no_calls_kept, with_call, with_close};

use crate::keeper::counting;
use crate::tables;
use desk_values::{Bytes, List, Txt};
use run_register::{AcceptList, KeepErr, Keeper, KeptList};
use sqlite::{Connection, Error, File, FileStore};
use std::alloc::Global;
use std::fs;
use std::marker::Model;

/// The file of the register, in the folder where the program runs.
pub const REGISTER_FILE: &str = "register.db";

/// The register in a file of the system, which it does not tell. The file is opened at the first call that needs it, and made only where
/// something is kept: of a file that is not there nothing is kept.
/// Contracts see its counts: each refusal other than want of memory is a fault.
#[derive(Drop)]
pub struct RegisterFile<'a> {
    alloc: Global,
    opened: Opened<'a>,
    faults: u64,
    closes: u64,
}

impl<'a> Model for RegisterFile<'a> {
    ghost use Rattle.run_register.specs.Register.{KeeperCounts};

    ghost Value = { KeeperCounts };

    ghost view = { λ a. record { faults = a.faults; closes = a.closes } };
}

impl<'a> RegisterFile<'a> {
    /// The register in the file of this name, with no fault so far. A relative name starts at the folder where the program
    /// runs.
    pub fn new(system: &'a HostRuntime, alloc: Global, path: &'a str) -> Self
        ensures { result ≡ no_calls_kept }
    {
        RegisterFile {
            alloc,
            opened: Opened {
                system,
                path,
                connection: None,
            },
            faults: 0,
            closes: 0,
        }
    }
}

impl Keeper for RegisterFile<'_> {
    ghost account = { λ s. record { runs = None; divergences = None; faults = s.faults; closes = s.closes } };

    fn get(&mut self, name: &Txt) -> Result<Option<Bytes>, KeepErr>
        ensures { self.new ≡ with_call (keeper_ending result) self.old }
    {
        let found = self.opened.find(name.as_str());
        counting(&mut self.faults, found)
    }

    fn add(&mut self, name: &Txt, report: &[u8]) -> Result<Option<Bytes>, KeepErr>
        ensures { self.new ≡ with_call (keeper_ending result) self.old }
    {
        let kept = self.opened.keep(name.as_str(), report);
        counting(&mut self.faults, kept)
    }

    fn all(&mut self) -> Result<KeptList, KeepErr>
        ensures { self.new ≡ with_call (keeper_ending result) self.old }
    {
        let runs = self.opened.all(self.alloc);
        counting(&mut self.faults, runs)
    }

    fn accept(&mut self, name: &Txt, stamp: u32, class: u32) -> Result<(), KeepErr>
        ensures { self.new ≡ with_call (keeper_ending result) self.old }
    {
        let done = self.opened.accept(name.as_str(), stamp, class);
        counting(&mut self.faults, done)
    }

    fn accepted(&mut self, name: &Txt) -> Result<AcceptList, KeepErr>
        ensures { self.new ≡ with_call (keeper_ending result) self.old }
    {
        let accepted = self.opened.accepted(self.alloc, name.as_str());
        counting(&mut self.faults, accepted)
    }

    /// Closes the file where it is open: only then is the whole register in it alone. A later call opens it again.
    fn close(&mut self) -> Result<(), KeepErr>
        ensures { self.new ≡ with_close (keeper_ending result) self.old }
    {
        self.closes = self.closes.saturating_add(1);
        let closed = self.opened.close();
        counting(&mut self.faults, closed)
    }
}

// A file that is opened at the first call that needs it.
#[derive(Drop)]
struct Opened<'a> {
    system: &'a HostRuntime,
    path: &'a str,
    connection: Option<Connection<FileStore<File>>>,
}

impl Opened<'_> {
    // Whether nothing is kept, since there is no file.
    fn is_absent(&self) -> bool {
        self.connection.is_none() && matches!(fs::exists(self.system, self.path), Ok(false))
    }

    fn find(&mut self, name: &str) -> Result<Option<Bytes>, Error> {
        if self.is_absent() {
            return Ok(None);
        }
        tables::find(self.connection()?, name)
    }

    fn keep(&mut self, name: &str, report: &[u8]) -> Result<Option<Bytes>, Error> {
        tables::keep(self.connection()?, name, report)
    }

    fn all(&mut self, alloc: Global) -> Result<KeptList, Error> {
        if self.is_absent() {
            return Ok(List::new(alloc));
        }
        tables::all(alloc, self.connection()?)
    }

    fn accept(&mut self, name: &str, stamp: u32, class: u32) -> Result<(), Error> {
        tables::accept(self.connection()?, name, stamp, class)
    }

    fn accepted(&mut self, alloc: Global, name: &str) -> Result<AcceptList, Error> {
        if self.is_absent() {
            return Ok(List::new(alloc));
        }
        tables::accepted(alloc, self.connection()?, name)
    }

    // Its connection.
    fn connection(&mut self) -> Result<&mut Connection<FileStore<File>>, Error> {
        if self.connection.is_none() {
            self.connection = Some(Connection::open(self.system, self.path)?);
        }
        self.connection.as_mut().ok_or(Error::InvalidQuery)
    }

    // What the log beside the file holds is copied into the file.
    fn close(&mut self) -> Result<(), Error> {
        match self.connection.take() {
            Some(connection) => connection.close(),
            None => Ok(()),
        }
    }
}
