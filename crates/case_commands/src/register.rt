//! The register of runs, which stays from one run of a command to the next.

ghost use Rattle.std.specs.Prelude.{◌≡◌, None};
ghost use Rattle.desk_files.specs.Outside.{counted};
ghost use Rattle.run_register.specs.Register.{keeper_ending, with_call, with_close};

use crate::kept::lines_of;
use case_text::{first_word, stamps_of, txt};
use desk_values::{Bytes, ReadErr, Stamps, Txt};
use run_register::{AcceptList, KeepErr, Keeper, KeptList, MemKeeper};
use std::alloc::Global;
use std::marker::Model;

/// A register in memory, of whose calls in the next run some fail. Contracts see its counts.
#[derive(Drop)]
pub struct Register {
    alloc: Global,
    keeper: MemKeeper,
    fails: Stamps,
    made: u32,
    faults: u64,
    closes: u64,
}

impl Model for Register {
    ghost use Rattle.run_register.specs.Register.{KeeperCounts};

    ghost Value = { KeeperCounts };

    ghost view = { λ a. record { faults = a.faults; closes = a.closes } };
}

impl Register {
    /// No run.
    pub fn new(alloc: Global) -> Register {
        Register {
            alloc,
            keeper: MemKeeper::new(alloc, KeptList::new(alloc), Stamps::new(alloc)),
            fails: Stamps::new(alloc),
            made: 0,
            faults: 0,
            closes: 0,
        }
    }

    /// Calls with these numbers fail in the next run.
    pub fn fail(&mut self, text: &str) -> Result<(), ReadErr> {
        self.fails = stamps_of(self.alloc, text)?;
        self.made = 0;
        Ok(())
    }

    /// No call fails from here on.
    pub fn fail_no_more(&mut self) {
        self.fails = Stamps::new(self.alloc);
    }

    /// Puts a run there: `NAME TEXT`, whatever the text is.
    pub fn put(&mut self, text: &str) -> Result<(), ReadErr> {
        let (name, report) = first_word(text);
        let report = lines_of(self.alloc, report)?;
        let _ = self.keeper.add(&txt(self.alloc, name)?, report.as_slice());
        Ok(())
    }
}

impl Keeper for Register {
    ghost account = { λ s. record { runs = None; divergences = None; faults = s.faults; closes = s.closes } };

    fn get(&mut self, name: &Txt) -> Result<Option<Bytes>, KeepErr>
        ensures { self.new ≡ with_call (keeper_ending result) self.old }
    {
        if is_to_fail(&mut self.made, &self.fails) {
            return counting(&mut self.faults, Err(KeepErr::Failed));
        }
        let found = self.keeper.get(name);
        counting(&mut self.faults, found)
    }

    fn add(&mut self, name: &Txt, report: &[u8]) -> Result<Option<Bytes>, KeepErr>
        ensures { self.new ≡ with_call (keeper_ending result) self.old }
    {
        if is_to_fail(&mut self.made, &self.fails) {
            return counting(&mut self.faults, Err(KeepErr::Failed));
        }
        let kept = self.keeper.add(name, report);
        counting(&mut self.faults, kept)
    }

    fn all(&mut self) -> Result<KeptList, KeepErr>
        ensures { self.new ≡ with_call (keeper_ending result) self.old }
    {
        if is_to_fail(&mut self.made, &self.fails) {
            return counting(&mut self.faults, Err(KeepErr::Failed));
        }
        let runs = self.keeper.all();
        counting(&mut self.faults, runs)
    }

    fn accept(&mut self, name: &Txt, stamp: u32, class: u32) -> Result<(), KeepErr>
        ensures { self.new ≡ with_call (keeper_ending result) self.old }
    {
        if is_to_fail(&mut self.made, &self.fails) {
            return counting(&mut self.faults, Err(KeepErr::Failed));
        }
        let done = self.keeper.accept(name, stamp, class);
        counting(&mut self.faults, done)
    }

    fn accepted(&mut self, name: &Txt) -> Result<AcceptList, KeepErr>
        ensures { self.new ≡ with_call (keeper_ending result) self.old }
    {
        if is_to_fail(&mut self.made, &self.fails) {
            return counting(&mut self.faults, Err(KeepErr::Failed));
        }
        let accepted = self.keeper.accepted(name);
        counting(&mut self.faults, accepted)
    }

    fn close(&mut self) -> Result<(), KeepErr>
        ensures { self.new ≡ with_close (keeper_ending result) self.old }
    {
        self.closes = self.closes.saturating_add(1);
        if is_to_fail(&mut self.made, &self.fails) {
            return counting(&mut self.faults, Err(KeepErr::Failed));
        }
        let closed = self.keeper.close();
        counting(&mut self.faults, closed)
    }
}

// Whether the next call is one that is to fail. It is counted.
fn is_to_fail(made: &mut u32, fails: &Stamps) -> bool {
    let number = *made;
    *made = made.saturating_add(1);
    fails.as_slice().iter().any(|other| *other == number)
}

// The answer of a call. Where it failed, the fault is counted.
fn counting<T>(faults: &mut u64, answer: Result<T, KeepErr>) -> Result<T, KeepErr>
    ensures { faults.new ≡ counted (keeper_ending result) faults.old }
{
    match answer {
        Ok(value) => Ok(value),
        Err(KeepErr::Memory) => Err(KeepErr::Memory),
        Err(KeepErr::Failed) => {
            *faults = faults.saturating_add(1);
            Err(KeepErr::Failed)
        }
    }
}
