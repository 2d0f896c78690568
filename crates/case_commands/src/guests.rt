//! The connections that the next run's host has.

use case_text::{first_word, small_number, stamps_of, unescaped};
use desk_files::{MemConn, MemConns, MemHost};
use desk_values::{Memory, Stamps};
use std::alloc::Global;
use std::mem;

/// Connections, and the numbers of the calls of their host that fail.
#[derive(Drop)]
pub struct Guests {
    alloc: Global,
    conns: MemConns,
    fails: Stamps,
}

impl Guests {
    /// No connection.
    pub fn new(alloc: Global) -> Guests {
        Guests {
            alloc,
            conns: MemConns::new(alloc),
            fails: Stamps::new(alloc),
        }
    }

    /// Adds a connection: `READS WRITES ROOM TEXT`.
    pub fn add(&mut self, text: &str) -> Result<(), Memory> {
        let (reads, rest) = first_word(text);
        let (writes, rest) = first_word(rest);
        let (room, text) = first_word(rest);
        self.conns.push(MemConn {
            input: unescaped(self.alloc, text)?,
            room: small_number(room),
            input_fails: stamps_of(self.alloc, reads)?,
            output_fails: stamps_of(self.alloc, writes)?,
        })
    }

    /// Calls of the host with these numbers fail.
    pub fn fail(&mut self, text: &str) -> Result<(), Memory> {
        self.fails = stamps_of(self.alloc, text)?;
        Ok(())
    }

    /// The host of all of these. Afterwards there is none.
    pub fn host(&mut self) -> Result<MemHost, Memory> {
        let conns = mem::replace(&mut self.conns, MemConns::new(self.alloc));
        let fails = mem::replace(&mut self.fails, Stamps::new(self.alloc));
        MemHost::new(self.alloc, conns, fails)
    }
}
