ghost use Rattle.std.specs.Prelude.{◌≡◌, ◌↔◌, ◌++◌, ◌∷◌, [], map, slice_get, IfOk, OnOk, OnErr, IsErr, IsTrue, Some};
ghost use Rattle.std.specs.Option.{option_copied};
ghost use Rattle.desk_files.specs.Outside.{is_failed};
ghost use Rattle.desk_files.specs.Answers.{print_ending};
ghost use Rattle.desk_files.specs.Hosts.{accept_ending, after_accept, after_back, after_listen, none_handed};
ghost use Rattle.desk_files.specs.Memory.{no_calls, after_call, fails_now};
ghost use Rattle.desk_files.specs.MemoryHosts.{IsFresh, TakesFirst, connections_of, stated};

use crate::calls::Calls;
use crate::fault::Failed;
use crate::handing::Handing;
use crate::host::Host;
use crate::mem_sink::MemSink;
use crate::mem_source::MemSource;
use desk_values::{Bytes, List, Memory, Stamps};
use std::alloc::Global;
use std::collections::VecDeque;
use std::marker::Model;

/// A connection of a host in memory.
#[derive(Drop)]
pub struct MemConn {
    /// The bytes that it sends.
    pub input: Bytes,
    /// How many bytes its output has room for.
    pub room: u32,
    /// The numbers of the reads that are to fail.
    pub input_fails: Stamps,
    /// The numbers of the writes that are to fail.
    pub output_fails: Stamps,
}

/// Connections in the order in which they come in.
pub type MemConns = List<MemConn>;

/// A host in memory, which tells the connections left and those given back. Its calls of `listen` and
/// `accept` are numbered together from 0, and those whose numbers were given to [`MemHost::new`] fail and
/// change nothing but the count of faults.
#[derive(Drop)]
pub struct MemHost {
    waiting: VecDeque<(MemSource, MemSink)>,
    returned: Vec<(MemSource, MemSink)>,
    calls: Calls,
    handed: Handing,
}

impl Model for MemHost {
    ghost use Rattle.desk_files.specs.MemoryHosts.{MemoryHost, IsFresh, memory_host_code};

    ghost Value = { MemoryHost };

    ghost coded = { memory_host_code };

    ghost use Rattle.std.specs.Prelude.{All};

    ghost invariant = { λ a. All IsFresh a.waiting.items };

    ghost view = { λ a. record { waiting = a.waiting.items; returned = a.returned.items; calls = a.calls; handed = a.handed } };
}

impl MemHost {
    /// These connections are left, with the memory for their outputs, and none was given back. The calls
    /// with the numbers `fails` are to fail.
    pub fn new(alloc: Global, conns: MemConns, fails: Stamps) -> Result<MemHost, Memory>
        ensures { IfOk result (λ host. host ≡ record {
          waiting = map stated conns;
          returned = [];
          calls = no_calls fails;
          handed = none_handed;
        }) }
    {
        Ok(MemHost {
            waiting: ends_of(alloc, conns)?,
            returned: Vec::new(alloc),
            calls: Calls::new(fails),
            handed: Handing::new(),
        })
    }

    /// The output of a connection that was given back, by its place from 0; `None` exactly where there is
    /// none.
    pub fn given_back(&self, i: usize) -> Option<&MemSink>
        ensures { option_copied result ≡ slice_get (map (λ pair. pair.1) self.now.returned) i }
    {
        match self.returned.get(i) {
            Some((_, output)) => Some(output),
            None => None,
        }
    }
}

impl Host for MemHost {
    type In = MemSource;

    type Out = MemSink;

    ghost account = { λ s. record { content = Some (connections_of s); faults = s.calls.faults; handed = s.handed } };

    fn listen(&mut self, port: u16) -> Result<(), Failed>
        ensures failed { IsErr result ↔ IsTrue (fails_now self.old.calls) }
        ensures calls { self.new ≡ record self.old {
          calls = after_call self.old.calls (is_failed (print_ending result));
          handed = after_listen result port self.old.handed;
        } }
    {
        if self.calls.fails_now() {
            self.calls.count(true);
            return Err(Failed);
        }
        self.calls.count(false);
        self.handed.listens(port);
        Ok(())
    }

    fn accept(&mut self) -> Result<Option<(MemSource, MemSink)>, Failed>
        ensures failed { IsErr result ↔ IsTrue (fails_now self.old.calls) }
        ensures takes { TakesFirst result self.old.waiting self.new.waiting }
        ensures returned { self.new.returned ≡ self.old.returned }
        ensures calls { self.new.calls ≡ after_call self.old.calls (is_failed (accept_ending result)) }
        ensures handed { self.new.handed ≡ after_accept result self.old.handed }
    {
        if self.calls.fails_now() {
            self.calls.count(true);
            return Err(Failed);
        }
        self.calls.count(false);
        let taken = self.waiting.pop_front();
        self.handed.count(&taken);
        Ok(taken)
    }

    fn back(&mut self, input: MemSource, output: MemSink) -> Result<(), Memory>
        ensures ok { OnOk result (self.new ≡ record self.old {
          returned = self.old.returned ++ (input, output) ∷ [];
          handed = after_back self.old.handed;
        }) }
        ensures err { OnErr result (self.new ≡ record self.old { handed = after_back self.old.handed }) }
    {
        self.handed.count_back();
        self.returned.push((input, output))?;
        Ok(())
    }
}

// The two ends of each connection, in order.
fn ends_of(alloc: Global, conns: MemConns) -> Result<VecDeque<(MemSource, MemSink)>, Memory>
    ensures { IfOk result (λ ends. ends.items ≡ map stated conns) }
{
    let mut ends = VecDeque::new(alloc);
    for conn in conns.into_vec() {
        let output = MemSink::new(alloc, conn.room, conn.output_fails)?;
        let input = MemSource::new(conn.input, conn.input_fails);
        ends.push_back((input, output))?;
    }
    Ok(ends)
}
