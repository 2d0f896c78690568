ghost use Rattle.std.specs.Prelude.{◌≡◌, None};
ghost use Rattle.desk_files.specs.Outside.{counted};
ghost use Rattle.desk_files.specs.Answers.{print_ending};

use crate::fault::Failed;
use crate::sink::Sink;
use std::marker::Model;

/// The standard output. It does not tell its bytes. Contracts see the count of faults.
#[derive(Drop)]
pub struct StdSink<'a, R> {
    system: &'a R,
    faults: u64,
}

impl<'a, R> Model for StdSink<'a, R> {
    ghost use Rattle.std.specs.Prelude.{ℕ};

    ghost Value = { ℕ };

    ghost view = { λ a. a.faults };
}

impl<'a, R: Print> StdSink<'a, R> {
    /// The standard output of `system`, with no fault so far.
    pub fn new(system: &'a R) -> Self
        ensures { result ≡ 0 }
    {
        StdSink { system, faults: 0 }
    }
}

impl<R: Print> Sink for StdSink<'_, R> {
    ghost account = { λ count. record { content = None; faults = count } };

    fn write(&mut self, bytes: &[u8]) -> Result<(), Failed>
        ensures { self.new ≡ counted (print_ending result) self.old }
    {
        if self.system.write_all(bytes).is_err() {
            self.faults = self.faults.saturating_add(1);
            return Err(Failed);
        }
        Ok(())
    }

    /// Does nothing: the standard output stays open.
    fn close(&mut self)
        ensures { self.new ≡ self.old }
    {}
}
