//! One connection: as it comes, as it has ended, and where it is served.

ghost use Rattle.std.specs.Prelude.{◌≡◌};
ghost use Rattle.capture_serve.specs.Inside.Passing.{IsPassed, passed_of};

use crate::stream::Closed;
use capture_http::ConnEnd;
use capture_recorder::{SaidList, TurnedList};
use desk_files::{Sink, Source};
use std::snapshot::Snapshot;
use std::thread::{Promise, PromisedHandle};

/// A connection that came.
#[derive(Drop)]
pub(crate) struct Coming<I, O> {
    /// The number of its session.
    pub(crate) session: u32,
    /// Where its requests come from.
    pub(crate) input: I,
    /// Where its answers go.
    pub(crate) output: O,
}

/// A connection that was served, and then closed.
#[derive(Drop)]
pub(crate) struct Served<I: Source, O: Sink> {
    /// Where its requests came from.
    pub(crate) input: Closed<I>,
    /// Where its answers went.
    pub(crate) output: Closed<O>,
    /// The calls that were answered.
    pub(crate) said: SaidList,
    /// The calls that were turned away.
    pub(crate) turned: TurnedList,
    /// How it ended.
    pub(crate) end: ConnEnd,
    /// What it was when it came.
    pub(crate) was: Snapshot<Coming<I, O>>,
}

/// The promise of the thread that serves this connection.
#[derive(Drop)]
pub(crate) struct ServedOf<I, O>(pub(crate) Snapshot<Coming<I, O>>);

impl<I: Source, O: Sink> Promise<Served<I, O>> for ServedOf<I, O> {
    ghost kept_by = { λ p served. (served.was.value ≡ p.0.value) × IsPassed (passed_of I.Source O.Sink served) };
}

/// Where a connection is served: by a thread, or it was served here.
#[derive(Drop)]
pub(crate) enum Seat<I: Source, O: Sink> {
    /// The thread.
    Thread(PromisedHandle<Served<I, O>, ServedOf<I, O>>),
    /// It was served.
    Here(Served<I, O>),
}
