//! Connections that have ended are given back.

ghost use Rattle.std.specs.Prelude.{◌≡◌, ◌+◌, ◌≤◌, ◌&&◌, [], map, length, is_ok, true, false, IfOk, IsSomeAnd, OnOk};
ghost use Rattle.desk_files.specs.Outside.{Told};
ghost use Rattle.desk_files.specs.Hosts.{after_back};
ghost use Rattle.capture_serve.specs.Inside.Passing.{AddsOne, Gave, GivesOne, HasNoted, Lost, passed_of};
ghost use Rattle.capture_serve.specs.Inside.Handing.{HasReturned};

use crate::connection::Served;
use crate::stream::Closed;
use capture_http::ConnEnd;
use capture_recorder::{SaidList, SaidLists, TurnedList, TurnedLists};
use desk_files::Host;
use desk_values::{List, Memory};
use std::alloc::Global;

/// What was said and turned away in connections, by session, and how many connections were short of memory.
#[derive(Drop)]
pub(crate) struct Notes {
    /// What was said.
    pub(crate) said: SaidLists,
    /// What was turned away.
    pub(crate) turned: TurnedLists,
    /// How many connections were short of memory.
    pub(crate) short: u32,
}

impl Notes {
    fn new(alloc: Global) -> Notes
        ensures { HasNoted result [] }
    {
        Notes {
            said: List::new(alloc),
            turned: List::new(alloc),
            short: 0,
        }
    }

    // Adds those of one more connection.
    fn add(&mut self, said: SaidList, turned: TurnedList, end: ConnEnd) -> Result<(), Memory>
        requires { self.old.short ≤ 64 }
        ensures adds { OnOk result (AddsOne said.items turned.items end self.old self.new) }
        ensures few { self.new.short ≤ self.old.short + 1 }
    {
        self.said.push(said)?;
        self.turned.push(turned)?;
        if end == ConnEnd::Memory {
            self.short += 1;
        }
        Ok(())
    }
}

/// Gives the connections back one after the other, each also where memory was short for one before it. It says whether each is told as
/// given back, and gives the notes of all, where there was memory for these.
pub(crate) fn give_back<H: Host>(
    alloc: Global,
    host: &mut H,
    served: Vec<Served<H::In, H::Out>>,
) -> (bool, Result<Notes, Memory>)
    requires few { length served.items ≤ 64 }
    ensures gave { result.0 ≡ true → Told (H.account host.old).content (λ before. IsSomeAnd (H.account host.new).content
        (Gave (map (passed_of H.In.Source H.Out.Sink) served.items) before)) }
    ensures lost { result.0 ≡ false → Told (H.account host.old).content (λ before. IsSomeAnd (H.account host.new).content
        (Lost (length served.items) before)) }
    ensures notes { IfOk result.1 (λ notes. HasNoted notes (map (passed_of H.In.Source H.Out.Sink) served.items)) }
    ensures faults { (H.account host.new).faults ≡ (H.account host.old).faults }
    ensures handed { HasReturned (length served.items) (H.account host.old).handed (H.account host.new).handed }
{
    let mut notes = Notes::new(alloc);
    let mut told = true;
    let mut kept = true;
    for one in served {
        let Served {
            input,
            output,
            said,
            turned,
            end,
            ..
        } = one;
        let given = give_one(host, input, output);
        let noted = notes.add(said, turned, end);
        told = is_well(told, given);
        kept = is_well(kept, noted);
    }
    if kept {
        (told, Ok(notes))
    } else {
        (told, Err(Memory))
    }
}

// Gives one back, whose streams were closed.
fn give_one<H: Host>(
    host: &mut H,
    input: Closed<H::In>,
    output: Closed<H::Out>,
) -> Result<(), Memory>
    ensures gives_back { GivesOne H.In.Source H.Out.Sink input output result (H.account host.old).content (H.account host.new).content }
    ensures faults { (H.account host.new).faults ≡ (H.account host.old).faults }
    ensures handed { (H.account host.new).handed ≡ after_back (H.account host.old).handed }
{
    host.back(input.into_stream(), output.into_stream())
}

fn is_well(well: bool, done: Result<(), Memory>) -> bool
    ensures { result ≡ (well && is_ok done) }
{
    well && done.is_ok()
}
