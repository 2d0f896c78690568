//! Connections as they come, and as they end.

ghost use Rattle.std.specs.Prelude.{◌≡◌, ◌≤◌, [], length, map, IfOk};
ghost use Rattle.std.specs.List.{AllByRecursion};
ghost use Rattle.std.specs.Thread.{IsSync};
ghost use Rattle.std.specs.Vec.{vec_capacity};
ghost use Rattle.desk_files.specs.Outside.{Counts};
ghost use Rattle.capture_serve.specs.Inside.Passing.{Came, IsKept, IsPassed, arrival, coming_of, halt_ending, passed_of};
ghost use Rattle.capture_serve.specs.Inside.Handing.{HasTaken};

use crate::connection::{Coming, Seat, Served};
use crate::halt::Halt;
use crate::seating::{join_all, start};
use capture_recorder::Recorder;
use desk_files::{Door, Host, Sink, Source};
use desk_values::Memory;
use std::alloc::Global;
use std::sync::{Mutex, Wait};
use std::thread;
use std::thread::{Scope, Threads};
use std::time::Clock;

/// Takes so many connections, or all that the host has, serves each in a thread of its own, and waits until all have ended. Beside
/// them it gives how the taking ended. Where there is no memory for that, none is taken.
pub(crate) fn serve_all<'a, R: Clock + Wait + Threads + Sync, H: Host, D: Door>(
    rt: &'a R,
    alloc: Global,
    host: &mut H,
    recorder: &'a Mutex<Recorder>,
    clock: &'a D,
    most: u32,
) -> (Vec<Served<H::In, H::Out>>, Result<(), Halt>)
    requires { most ≤ 64 }
    ensures came { Came result.1 most
        (map (λ served. arrival H.In.Source H.Out.Sink served.was.value) result.0.items) (H.account host.old).content (H.account host.new).content }
    ensures few { length result.0.items ≤ most }
    ensures passed { AllByRecursion IsPassed (map (passed_of H.In.Source H.Out.Sink) result.0.items) }
    ensures counts { Counts (halt_ending result.1) (H.account host.old).faults (H.account host.new).faults }
    ensures handed { HasTaken (length result.0.items) (H.account host.old).handed (H.account host.new).handed }
{
    let (served, halted, _host) = thread::scope(
        thread::scope_env(),
        rt,
        move |scope| -> (Vec<Served<H::In, H::Out>>, Result<(), Halt>, &mut H)
            requires sync { IsSync R.row }
            requires most { most ≤ 64 }
            ensures came { Came result.1 most
                (map (λ served. arrival H.In.Source H.Out.Sink served.was.value) result.0.items) (H.account host.entry.now).content (H.account result.2.now).content }
            ensures few { length result.0.items ≤ most }
            ensures passed { AllByRecursion IsPassed (map (passed_of H.In.Source H.Out.Sink) result.0.items) }
            ensures counts { Counts (halt_ending result.1) (H.account host.entry.now).faults (H.account result.2.now).faults }
            ensures handed { HasTaken (length result.0.items) (H.account host.entry.now).handed (H.account result.2.now).handed }
            ensures same { result.2.ghost_name ≡ host.entry.ghost_name }
        {
            let (served, halted) = serve_each(scope, rt, alloc, host, recorder, clock, most);
            (served, halted, host)
        },
    );
    (served, halted)
}

// The room for connections, while they are served and behind that.
#[derive(Drop)]
struct Room<I: Source, O: Sink> {
    seats: Vec<Seat<I, O>>,
    served: Vec<Served<I, O>>,
}

impl<I: Source + Drop, O: Sink + Drop> Room<I, O> {
    fn of(alloc: Global, most: u32) -> Result<Room<I, O>, Memory>
        ensures seats { IfOk result (λ room. (room.seats.items ≡ []) × (most ≤ vec_capacity room.seats)) }
        ensures served { IfOk result (λ room. (room.served.items ≡ []) × (most ≤ vec_capacity room.served)) }
    {
        let seats = Vec::with_capacity(alloc, most as usize)?;
        let served = Vec::with_capacity(alloc, most as usize)?;
        Ok(Room { seats, served })
    }
}

// The same within the threads' scope. The room for all of them is taken before the first of them.
fn serve_each<'s, E, R: Clock + Wait + Threads + Sync, H: Host + 's, D: Door>(
    scope: &'s Scope<'s, E>,
    rt: &'s R,
    alloc: Global,
    host: &mut H,
    recorder: &'s Mutex<Recorder>,
    clock: &'s D,
    most: u32,
) -> (Vec<Served<H::In, H::Out>>, Result<(), Halt>)
    requires sync { IsSync R.row }
    requires most { most ≤ 64 }
    ensures came { Came result.1 most
        (map (λ served. arrival H.In.Source H.Out.Sink served.was.value) result.0.items) (H.account host.old).content (H.account host.new).content }
    ensures few { length result.0.items ≤ most }
    ensures passed { AllByRecursion IsPassed (map (passed_of H.In.Source H.Out.Sink) result.0.items) }
    ensures counts { Counts (halt_ending result.1) (H.account host.old).faults (H.account host.new).faults }
    ensures handed { HasTaken (length result.0.items) (H.account host.old).handed (H.account host.new).handed }
{
    let Ok(room) = Room::of(alloc, most) else {
        return (Vec::new(alloc), Err(Halt::Memory));
    };
    let Room {
        mut seats,
        mut served,
    } = room;
    let halted = accept_all(scope, rt, alloc, host, recorder, clock, most, &mut seats);
    join_all(rt, seats, &mut served);
    (served, halted)
}

// Takes connections and starts to serve each.
fn accept_all<'s, E, R: Clock + Wait + Threads + Sync, H: Host + 's, D: Door>(
    scope: &'s Scope<'s, E>,
    rt: &'s R,
    alloc: Global,
    host: &mut H,
    recorder: &'s Mutex<Recorder>,
    clock: &'s D,
    most: u32,
    seats: &mut Vec<Seat<H::In, H::Out>>,
) -> Result<(), Halt>
    requires sync { IsSync R.row }
    requires most { most ≤ 64 }
    requires none { seats.old.items ≡ [] }
    requires room { most ≤ vec_capacity seats.old }
    ensures came { Came result most
        (map (λ seat. arrival H.In.Source H.Out.Sink (coming_of seat)) seats.new.items) (H.account host.old).content (H.account host.new).content }
    ensures few { length seats.new.items ≤ most }
    ensures kept { AllByRecursion (IsKept H.In.Source H.Out.Sink) seats.new.items }
    ensures counts { Counts (halt_ending result) (H.account host.old).faults (H.account host.new).faults }
    ensures handed { HasTaken (length seats.new.items) (H.account host.old).handed (H.account host.new).handed }
{
    for session in 0..most {
        let (input, output) = match host.accept() {
            Ok(Some(ends)) => ends,
            Ok(None) => return Ok(()),
            Err(_) => return Err(Halt::Failed),
        };
        let coming = Coming {
            session,
            input,
            output,
        };
        seats.push_reserved(start(scope, rt, alloc, recorder, clock, coming));
    }
    Ok(())
}
