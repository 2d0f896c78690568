ghost use Rattle.std.specs.Prelude.{◌≡◌, ◌↔◌, ◌+◌, ◌≤◌, ◌++◌, [], length, IfOk, OnOk, OnErr, IsErr, IsTrue, Some};
ghost use Rattle.desk_files.specs.Outside.{is_failed};
ghost use Rattle.desk_files.specs.Answers.{print_ending};
ghost use Rattle.desk_files.specs.Memory.{no_calls, after_call, refuses};

use crate::calls::Calls;
use crate::fault::Failed;
use crate::sink::Sink;
use desk_values::{Memory, Reserved, Stamps};
use std::alloc::Global;
use std::marker::Model;

/// A sink in memory, which tells its bytes. Its writes are numbered from 0. A write fails exactly where
/// its number was given to [`MemSink::new`] or its bytes do not fit into what is left of the room; it
/// then changes nothing but the count of faults. No write takes memory, since `new` took it.
#[derive(Drop)]
pub struct MemSink {
    held: Reserved<u8>,
    room: u32,
    calls: Calls,
}

impl Model for MemSink {
    ghost use Rattle.desk_files.specs.Memory.{MemorySink, memory_sink_code};

    ghost Value = { MemorySink };

    ghost coded = { memory_sink_code };

    ghost use Rattle.std.specs.Prelude.{◌≤◌, ◌+◌, length};

    ghost invariant = { λ a. (length a.held.items ≤ a.room) × (a.room ≤ length a.held.items + a.held.spare) };

    ghost view = { λ a. record { held = a.held.items; room = a.room; calls = a.calls } };
}

impl MemSink {
    /// No bytes so far, with the memory for `room` of them. The writes with the numbers `fails` are to
    /// fail.
    pub fn new(alloc: Global, room: u32, fails: Stamps) -> Result<MemSink, Memory>
        ensures { IfOk result (λ sink. sink ≡ record { held = []; room = room; calls = no_calls fails }) }
    {
        let mut held = Reserved::new(alloc);
        held.reserve(room)?;
        Ok(MemSink {
            held,
            room,
            calls: Calls::new(fails),
        })
    }

    /// The bytes so far.
    pub fn held(&self) -> &Reserved<u8>
        ensures { result.now.items ≡ self.now.held }
    {
        &self.held
    }
}

impl Sink for MemSink {
    ghost account = { λ s. record { content = Some s.held; faults = s.calls.faults } };

    fn write(&mut self, bytes: &[u8]) -> Result<(), Failed>
        ensures failed { IsErr result ↔ IsTrue (refuses self.old bytes.now) }
        ensures ok { OnOk result (self.new.held ≡ self.old.held ++ bytes.now) }
        ensures err { OnErr result (self.new.held ≡ self.old.held) }
        ensures calls { self.new.calls ≡ after_call self.old.calls (is_failed (print_ending result)) }
        ensures room { self.new.room ≡ self.old.room }
    {
        if self.calls.fails_now() || bytes.len() > self.room as usize - self.held.len() {
            self.calls.count(true);
            return Err(Failed);
        }
        self.calls.count(false);
        append(bytes, &mut self.held);
        Ok(())
    }

    /// Does nothing.
    fn close(&mut self)
        ensures { self.new ≡ self.old }
    {}
}

// Appends the bytes into the room that is there for them.
fn append(bytes: &[u8], to: &mut Reserved<u8>)
    requires { length bytes.now ≤ to.old.spare }
    ensures items { to.new.items ≡ to.old.items ++ bytes.now }
    ensures spare { to.old.spare ≤ to.new.spare + length bytes.now }
{
    for byte in bytes {
        to.push(*byte).unwrap();
    }
}
