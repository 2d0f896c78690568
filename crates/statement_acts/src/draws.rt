//! Values that a statement draws from sequences.

ghost use Rattle.std.specs.Prelude.{◌≡◌, ◌-◌, ◌^◌, ◌<◌, map, nat_eq, All, IfOk, IfSome, is_some};
ghost use Rattle.std.specs.List.{list_any};
ghost use Rattle.sql_tree.specs.Plain.{entry_of, plan_of};
ghost use Rattle.server_words.specs.Draws.{draws_from, draws_of, drawn_value, is_draw_of, is_from, moved};

use desk_values::{Copied, List, Memory, Value, Values};
use sql_eval::{Ready, ReadyInput};
use std::alloc::Global;

/// The values that the statement draws: one from each sequence that it names, by ascending number.
pub fn draws_of(alloc: Global, statement: &Ready, next_values: &[u64]) -> Result<Values, Memory>
    ensures { IfOk result (λ draws. draws ≡ draws_of (plan_of statement.now) next_values.now) }
{
    let mut draws = List::new(alloc);
    for (place, next) in next_values.iter().enumerate() {
        if let Some(sequence) = drawn_from(statement, place) {
            draws.push(Value::Draw(sequence, *next))?;
        }
    }
    Ok(draws)
}

/// The number of the sequence at this place, where the statement draws from it.
fn drawn_from(statement: &Ready, place: usize) -> Option<u32>
    ensures drawn { is_some result ≡ draws_from (plan_of statement.now) place }
    ensures number { IfSome result (λ sequence. sequence ≡ place) }
{
    match statement {
        Ready::Next(sequence) => same_sequence(*sequence, place),
        Ready::Insert(_, _, inputs) => named_by(inputs.as_slice(), place),
        _ => None,
    }
}

fn same_sequence(sequence: u32, place: usize) -> Option<u32>
    ensures drawn { is_some result ≡ nat_eq sequence place }
    ensures number { IfSome result (λ sequence. sequence ≡ place) }
{
    if sequence as usize == place {
        Some(sequence)
    } else {
        None
    }
}

/// The number of the sequence at this place, where an input draws from it.
fn named_by(inputs: &[ReadyInput], place: usize) -> Option<u32>
    ensures drawn { is_some result ≡ list_any (is_from place) (map entry_of inputs.now) }
    ensures number { IfSome result (λ sequence. sequence ≡ place) }
{
    for input in inputs {
        if let ReadyInput::Next(sequence) = input {
            if *sequence as usize == place {
                return Some(*sequence);
            }
        }
    }
    None
}

/// The value that was drawn from a sequence, Null where none was.
pub fn drawn_value(draws: &[Value], sequence: u32) -> Result<Value, Memory>
    ensures { IfOk result (λ value. value ≡ drawn_value draws.now sequence) }
{
    for draw in draws {
        if is_draw_of(sequence as usize, draw) {
            return draw.copy();
        }
    }
    Ok(Value::Null)
}

fn is_draw_of(place: usize, draw: &Value) -> bool
    ensures { result ≡ is_draw_of place draw.now }
{
    match draw {
        Value::Draw(sequence, _) => *sequence as usize == place,
        _ => false,
    }
}

fn some_is_of(place: usize, draws: &[Value]) -> bool
    ensures { result ≡ list_any (is_draw_of place) draws.now }
{
    draws.iter().any(|draw| is_draw_of(place, draw))
}

/// Each sequence that a value was drawn from moves by 1.
pub fn move_sequences(next_values: &mut [u64], draws: &[Value])
    requires { All (λ next. next < 2 ^ 64 - 1) next_values.old }
    ensures { next_values.new ≡ moved draws.now 0 next_values.old }
{
    for (place, next) in next_values.iter_mut().enumerate() {
        if some_is_of(place, draws) {
            *next += 1;
        }
    }
}
