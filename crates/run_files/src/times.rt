//! How often each call starts, or is answered, counted in one pass.

ghost use Rattle.std.specs.Prelude.{◌≡◌, ◌+◌, ◌≤◌, ◌++◌, ◌∷◌, [], ℕ, List, length, not, replicate, slice_index_or, IfOk};
ghost use Rattle.std.specs.List.{find, range_with_len};
ghost use Rattle.desk_values.specs.declared.capture.Event.{Event as AnyEvent};
ghost use Rattle.run_files.specs.Fitting.{not_once, stamp_in};
ghost use Rattle.run_files.specs.declared.times.Times.TheVariants.{Never as NotAtAll};
ghost use Rattle.run_files.specs.Inside.Times.{AreCounts, AreTimesOf, IsTimes, is_once, one_more_at};

use crate::misfit::Kind;
use desk_values::{Event, Memory};
use std::alloc::Global;

// How often a call has an event of a kind.
#[derive(Drop)]
enum Times {
    Never,
    Once,
    Often,
}

impl Times {
    // Once more.
    fn add(&mut self)
        ensures { (n : ℕ) → IsTimes n self.old → IsTimes (n + 1) self.new }
    {
        *self = match self {
            Times::Never => Times::Once,
            Times::Once | Times::Often => Times::Often,
        };
    }

    fn is_once(&self) -> bool
        ensures { result ≡ is_once self.now }
    {
        matches!(self, Times::Once)
    }
}

/// The stamp of the call that an event of this kind is of.
pub(crate) fn stamp_in(kind: Kind, event: &Event) -> Option<u32>
    ensures { result ≡ stamp_in kind event.now }
{
    match (kind, event) {
        (Kind::Start, Event::Start(stamp, _)) | (Kind::Answer, Event::Answer(stamp, _)) => {
            Some(*stamp)
        }
        _ => None,
    }
}

/// The least stamp below this number of calls that has not just one event of a kind.
pub(crate) fn not_once(
    alloc: Global,
    kind: Kind,
    calls: usize,
    history: &[Event],
) -> Result<Option<u32>, Memory>
    requires { calls ≤ 100000 }
    ensures { IfOk result (λ found. found ≡ not_once kind history.now calls) }
{
    let times = times_of(alloc, kind, calls, history)?;
    Ok(first_not_once(&times))
}

// How often each of so many calls has one.
fn times_of(
    alloc: Global,
    kind: Kind,
    calls: usize,
    history: &[Event],
) -> Result<Vec<Times>, Memory>
    ensures { IfOk result (λ times. AreTimesOf kind history.now calls times.items) }
{
    let mut times = all_never(alloc, calls)?;
    for event in history {
        note(kind, event, &mut times);
    }
    Ok(times)
}

fn all_never(alloc: Global, calls: usize) -> Result<Vec<Times>, Memory>
    ensures { IfOk result (λ times. times.items ≡ replicate calls NotAtAll) }
{
    let mut times = Vec::with_capacity(alloc, calls)?;
    for _call in 0..calls {
        times.push(Times::Never)?;
    }
    Ok(times)
}

// What an event adds.
fn note(kind: Kind, event: &Event, times: &mut Vec<Times>)
    ensures { (history : List AnyEvent) → (n : ℕ) → AreTimesOf kind history n times.old.items → AreTimesOf kind (history ++ event.now ∷ []) n times.new.items }
{
    match stamp_in(kind, event) {
        Some(stamp) => add_at(stamp, times),
        None => {}
    }
}

// Once more at a stamp; one that is beyond the calls is left out.
fn add_at(stamp: u32, times: &mut Vec<Times>)
    ensures { (counts : ℕ → ℕ) → (n : ℕ) → AreCounts counts n times.old.items → AreCounts (one_more_at stamp counts) n times.new.items }
{
    let stamp = stamp as usize;
    if stamp < times.len() {
        times[stamp].add();
    }
}

// The first that has not just one.
fn first_not_once(times: &[Times]) -> Option<u32>
    requires { length times.now ≤ 100000 }
    ensures { result ≡ find (λ k. not (is_once (slice_index_or times.now k NotAtAll))) (range_with_len 0 (length times.now)) }
{
    for k in 0..times.len() {
        if !times[k].is_once() {
            return Some(k as u32);
        }
    }
    None
}
