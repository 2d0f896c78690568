//! A seat for each stamp, so that the calls come into their order in one pass; no call is copied.

ghost use Rattle.std.specs.Prelude.{◌≡◌, ◌≤◌, ◌++◌, ◌∷◌, [], ℕ, List, length, replicate, slice_index_or, IfOk, not};
ghost use Rattle.std.specs.List.{filter_map, find, range_with_len};
ghost use Rattle.desk_values.specs.Answers.{Answers};
ghost use Rattle.desk_values.specs.declared.capture.Captured.{Captured as Call};
ghost use Rattle.prepare_plan.specs.declared.seats.Seat.TheVariants.{Empty as NoCall};
ghost use Rattle.prepare_plan.specs.Inside.{IsSeat, AreSeatsOf, is_taken, taken_call, ordered, ordered_seen};
ghost use Rattle.prepare_plan.specs.Answered.{refusal_told};

use captured_calls::Refusal;
use desk_values::{CallList, Captured, Memory, Reserved};
use std::alloc::Global;

/// Who has a stamp.
#[derive(Drop)]
pub(crate) enum Seat {
    /// No call.
    Empty,
    /// This one alone.
    Taken(Captured),
    /// Several.
    Crowded,
}

impl Seat {
    /// One more call has its stamp.
    fn take(&mut self, call: Captured)
        ensures { (mine : List Call) → IsSeat mine self.old → IsSeat (mine ++ call ∷ []) self.new }
    {
        *self = match self {
            Seat::Empty => Seat::Taken(call),
            Seat::Taken(_) | Seat::Crowded => Seat::Crowded,
        };
    }

    /// Whether just one call has it.
    fn is_taken(&self) -> bool
        ensures { result ≡ is_taken self.now }
    {
        matches!(self, Seat::Taken(_))
    }
}

/// The calls by stamp; `Stamp` where some stamp is not that of one call, with the least.
pub(crate) fn ordered(alloc: Global, calls: Vec<Captured>) -> Result<CallList, Refusal>
    requires { length calls.items ≤ 100000 }
    ensures { Answers ordered_seen refusal_told result (ordered calls.items) }
{
    let seats = seated(alloc, calls)?;
    match free_seat(&seats) {
        Some(stamp) => Err(Refusal::Stamp { stamp }),
        None => Ok(listed(alloc, seats)?),
    }
}

/// The seats of the stamps below the number of calls.
fn seated(alloc: Global, calls: Vec<Captured>) -> Result<Vec<Seat>, Memory>
    ensures { IfOk result (λ seats. AreSeatsOf calls.items (length calls.items) seats.items) }
{
    let mut seats = free_seats(alloc, calls.len())?;
    for call in calls {
        take_seat(&mut seats, call);
    }
    Ok(seats)
}

/// So many seats of no call.
fn free_seats(alloc: Global, count: usize) -> Result<Vec<Seat>, Memory>
    ensures { IfOk result (λ seats. seats.items ≡ replicate count NoCall) }
{
    let mut seats = Vec::with_capacity(alloc, count)?;
    for _seat in 0..count {
        seats.push(Seat::Empty)?;
    }
    Ok(seats)
}

/// Gives a call its seat; a call whose stamp has none is left out.
fn take_seat(seats: &mut Vec<Seat>, call: Captured)
    ensures { (calls : List Call) → (n : ℕ) → AreSeatsOf calls n seats.old.items → AreSeatsOf (calls ++ call ∷ []) n seats.new.items }
{
    let stamp = call.stamp as usize;
    if stamp < seats.len() {
        seats[stamp].take(call);
    }
}

/// The first seat that not just one call has.
fn free_seat(seats: &[Seat]) -> Option<u32>
    requires { length seats.now ≤ 100000 }
    ensures { result ≡ find (λ k. not (is_taken (slice_index_or seats.now k NoCall))) (range_with_len 0 (length seats.now)) }
{
    for k in 0..seats.len() {
        if !seats[k].is_taken() {
            return Some(k as u32);
        }
    }
    None
}

/// The calls of the seats that just one has.
fn listed(alloc: Global, seats: Vec<Seat>) -> Result<CallList, Memory>
    requires { length seats.items ≤ 100000 }
    ensures { IfOk result (λ list. list.items ≡ filter_map taken_call seats.items) }
{
    let mut list = Reserved::new(alloc);
    list.reserve(seats.len() as u32)?;
    for seat in seats {
        if let Seat::Taken(call) = seat {
            list.push(call)?;
        }
    }
    Ok(list)
}
