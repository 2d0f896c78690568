//! The numbers that the server gives out next, as its replies show them.

ghost use Rattle.std.specs.Prelude.{◌≡◌, ◌<◌, ◌-◌, ◌^◌, ◌&&◌, All, IfOk, nat_le, nat_lt, slice_get};
ghost use Rattle.std.specs.Option.{option_copied};
ghost use Rattle.server_words.specs.Draws.{moved};
ghost use Rattle.server_words.specs.State.{is_between};
ghost use Rattle.server_words.specs.Step.{after_made};
ghost use Rattle.capture_recorder.specs.Inside.Given.{is_later};

use desk_schema::Start;
use desk_values::{Memory, Reply, Value};
use statement_acts::move_sequences;
use std::alloc::Global;

/// The number of the next row, and the next value of each sequence.
#[derive(Drop)]
pub(crate) struct Counters {
    next_row: u64,
    next_values: Vec<u64>,
}

impl Counters {
    /// Those of a start.
    pub(crate) fn of_start(alloc: Global, start: &Start) -> Result<Counters, Memory>
        ensures row { IfOk result (λ counters. counters.next_row ≡ start.now.next_row) }
        ensures values { IfOk result (λ counters. counters.next_values.items ≡ start.now.next_values) }
    {
        Ok(Counters {
            next_row: start.next_row(),
            next_values: start.next_values().to_vec(alloc)?,
        })
    }

    /// What a reply gave out is given out no more.
    pub(crate) fn note(&mut self, reply: &Reply)
        requires row { self.old.next_row < 2 ^ 64 - 1 }
        requires values { All (λ next. next < 2 ^ 64 - 1) self.old.next_values.items }
        ensures row { self.new.next_row ≡ after_made reply.now.made self.old.next_row }
        ensures values { self.new.next_values.items ≡ moved reply.now.draws 0 self.old.next_values.items }
    {
        if reply.made.is_some() {
            self.next_row += 1;
        }
        move_sequences(self.next_values.as_mut_slice(), reply.draws.as_slice());
    }

    /// Whether an id was given out since the start.
    pub(crate) fn has_given(&self, start: &Start, value: &Value) -> bool
        ensures { result ≡ is_later start.now self.now.next_row self.now.next_values.items value.now }
    {
        match value {
            Value::Row(n) => is_between(Some(start.next_row()), Some(self.next_row), *n),
            Value::Draw(sequence, n) => is_between(
                start.next_value(*sequence),
                self.next_values.get(*sequence as usize).copied(),
                *n,
            ),
            _ => false,
        }
    }
}

fn is_between(first: Option<u64>, end: Option<u64>, n: u64) -> bool
    ensures { result ≡ is_between first end n }
{
    match (first, end) {
        (Some(first), Some(end)) => first <= n && n < end,
        _ => false,
    }
}
