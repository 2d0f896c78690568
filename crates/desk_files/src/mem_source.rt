ghost use Rattle.std.specs.Prelude.{◌≡◌, ◌≤◌, ◌<◌, ◌↔◌, [], length, drop, IfOk, OnErr, IsErr, IsTrue, Some};
ghost use Rattle.desk_files.specs.Outside.{is_failed};
ghost use Rattle.desk_files.specs.Sources.{Gives, source_ending};
ghost use Rattle.desk_files.specs.Memory.{no_calls, after_call, fails_now};

use crate::calls::Calls;
use crate::fault::Failed;
use crate::source::Source;
use desk_values::{Bytes, Stamps};
use std::marker::Model;

/// A source in memory, which tells the bytes left. Its reads are numbered from 0. A read fails exactly
/// where its number was given to [`MemSource::new`]; it then changes nothing but the count of faults. A
/// read fills the buffer where enough is left, and copies nothing else.
#[derive(Drop)]
pub struct MemSource {
    bytes: Bytes,
    taken: usize,
    calls: Calls,
}

impl Model for MemSource {
    ghost use Rattle.desk_files.specs.Memory.{MemorySource, memory_source_code};

    ghost Value = { MemorySource };

    ghost coded = { memory_source_code };

    ghost use Rattle.std.specs.Prelude.{◌≤◌, length, drop};

    ghost invariant = { λ a. a.taken ≤ length a.bytes };

    ghost view = { λ a. record { rest = drop a.taken a.bytes; calls = a.calls } };
}

impl MemSource {
    /// These bytes are left. The reads with the numbers `fails` are to fail.
    pub fn new(bytes: Bytes, fails: Stamps) -> MemSource
        ensures { result ≡ record { rest = bytes; calls = no_calls fails } }
    {
        MemSource {
            bytes,
            taken: 0,
            calls: Calls::new(fails),
        }
    }
}

impl Source for MemSource {
    ghost account = { λ s. record { content = Some s.rest; faults = s.calls.faults } };

    fn read(&mut self, buffer: &mut [u8]) -> Result<usize, Failed>
        ensures failed { IsErr result ↔ IsTrue (fails_now self.old.calls) }
        ensures fits { IfOk result (λ n. n ≤ length buffer.new) }
        ensures gives { IfOk result (λ n. Gives n buffer.new self.old.rest (Some self.new.rest)) }
        ensures fills { IfOk result (λ n. n < length buffer.new → self.new.rest ≡ []) }
        ensures err { OnErr result (self.new.rest ≡ self.old.rest) }
        ensures calls { self.new.calls ≡ after_call self.old.calls (is_failed (source_ending result)) }
    {
        if self.calls.fails_now() {
            self.calls.count(true);
            return Err(Failed);
        }
        self.calls.count(false);
        let rest = &self.bytes.as_slice()[self.taken..];
        let read = copy_front(rest, buffer);
        self.taken += read;
        Ok(read)
    }

    /// Does nothing.
    fn close(&mut self)
        ensures { self.new ≡ self.old }
    {}
}

// Copies as many of the first bytes as there is room for, and answers how many.
fn copy_front(from: &[u8], to: &mut [u8]) -> usize
    ensures length { length to.new ≡ length to.old }
    ensures gives { Gives result to.new from.now (Some (drop result from.now)) }
    ensures fits { result ≤ length to.new }
    ensures fills { result < length to.new → drop result from.now ≡ [] }
{
    let len = from.len().min(to.len());
    to[..len].copy_from_slice(&from[..len]);
    len
}
