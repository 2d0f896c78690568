//! A thread for each connection.

ghost use Rattle.std.specs.Prelude.{◌≡◌, ◌<◌, ◌≤◌, [], length, map};
ghost use Rattle.std.specs.List.{AllByRecursion};
ghost use Rattle.std.specs.Thread.{IsSync};
ghost use Rattle.std.specs.Vec.{vec_capacity};
ghost use Rattle.capture_serve.specs.Inside.Passing.{IsKept, IsPassed, coming_of, passed_of};

use crate::connection::{Coming, Seat, Served, ServedOf};
use crate::stream::{close_sink, close_source};
use capture_http::serve_connection;
use capture_recorder::{LockedDoor, Recorder};
use desk_files::{Door, Sink, Source};
use std::alloc::Global;
use std::snapshot::Snapshot;
use std::sync::{Mutex, Wait};
use std::thread::{Scope, Threads};
use std::time::Clock;

// Serves a connection until it ends, and closes it at once: first its sending side, so that the other side has all of the last answer.
fn serve_one<'a, R: Clock + Wait, I: Source, O: Sink, D: Door>(
    rt: &R,
    alloc: Global,
    recorder: &'a Mutex<Recorder>,
    clock: &'a D,
    coming: Coming<I, O>,
) -> Served<I, O>
    requires { coming.session < 64 }
    ensures was { result.was.value ≡ coming }
    ensures passed { IsPassed (passed_of I.Source O.Sink result) }
{
    let was = Snapshot::of(&coming);
    let Coming {
        session,
        mut input,
        mut output,
    } = coming;
    let mut door = LockedDoor::new(alloc, session, recorder, clock);
    let end = serve_connection(rt, alloc, &mut door, &mut input, &mut output);
    let output = close_sink(output);
    let input = close_source(input);
    let (said, turned) = door.into_lists();
    Served {
        input,
        output,
        said,
        turned,
        end,
        was,
    }
}

/// Starts a thread that serves a connection. Where none can be started, it is served here.
pub(crate) fn start<
    's,
    E,
    R: Clock + Wait + Threads + Sync,
    I: Source + Send + Drop + 's,
    O: Sink + Send + Drop + 's,
    D: Door,
>(
    scope: &'s Scope<'s, E>,
    rt: &'s R,
    alloc: Global,
    recorder: &'s Mutex<Recorder>,
    clock: &'s D,
    coming: Coming<I, O>,
) -> Seat<I, O>
    requires sync { IsSync R.row }
    requires session { coming.session < 64 }
    ensures comes { coming_of result ≡ coming }
    ensures kept { IsKept I.Source O.Sink result }
{
    let was = Snapshot::of(&coming);
    match scope.spawn_with(
        ServedOf(was),
        move || -> Served<I, O>
            requires { coming.session < 64 }
            ensures was { result.was.value ≡ coming }
            ensures passed { IsPassed (passed_of I.Source O.Sink result) }
        { serve_one(rt, alloc, recorder, clock, coming) },
    ) {
        Ok(thread) => Seat::Thread(thread),
        Err(refused) => Seat::Here((refused.value)()),
    }
}

/// Waits until the connections have ended, one after the other.
pub(crate) fn join_all<R: Threads, I: Source + Drop, O: Sink + Drop>(
    rt: &R,
    seats: Vec<Seat<I, O>>,
    all: &mut Vec<Served<I, O>>,
)
    requires kept { AllByRecursion (IsKept I.Source O.Sink) seats.items }
    requires none { all.old.items ≡ [] }
    requires room { length seats.items ≤ vec_capacity all.old }
    ensures came { map (λ served. served.was.value) all.new.items ≡ map coming_of seats.items }
    ensures passed { AllByRecursion IsPassed (map (passed_of I.Source O.Sink) all.new.items) }
{
    for seat in seats {
        all.push_reserved(join(rt, seat));
    }
}

fn join<R: Threads, I: Source + Drop, O: Sink + Drop>(rt: &R, seat: Seat<I, O>) -> Served<I, O>
    requires kept { IsKept I.Source O.Sink seat }
    ensures was { result.was.value ≡ coming_of seat }
    ensures passed { IsPassed (passed_of I.Source O.Sink result) }
{
    match seat {
        Seat::Thread(thread) => thread.join(rt),
        Seat::Here(served) => served,
    }
}
