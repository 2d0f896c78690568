//! What an INSERT does.

ghost use Rattle.std.specs.Prelude.{◌≡◌, map, nat_eq, IfOk};
ghost use Rattle.std.specs.List.{position};
ghost use Rattle.sql_tree.specs.Plain.{entry_of};
ghost use Rattle.sql_eval.specs.Faults.{any_fault, noted};
ghost use Rattle.found_rows.specs.Evaluation.{env_of};
ghost use Rattle.server_words.specs.Causes.{ranked};
ghost use Rattle.server_words.specs.Found.{sound};
ghost use Rattle.server_words.specs.Writes.{column_value, input_place, input_value, inputs_for, row_values};
ghost use Rattle.server_words.specs.Answer.{insert_causes, insert_effect, new_causes, new_row, ruled};
ghost use Rattle.server_words.specs.Decision.{Decides};
ghost use Rattle.visited_rows.specs.Basis.{view_of_basis};
ghost use Rattle.visited_rows.specs.Basis.{IsBasis};

use crate::deciding::{done, is_full, refusal};
use crate::draws::drawn_value;
use desk_schema::Column;
use desk_values::{Copied, Fault, Image, List, Memory, Outcome, Value, Values};
use found_rows::{Evaluation, evaluated, row_key, stored, tested};
use machine_stores::hold_key;
use server_words::{Causes, Decision, Effect, Writing};
use sql_eval::{Columns, Faults, ReadyInput, ReadyInputs};
use std::alloc::Global;
use std::slice;
use visited_rows::{Basis, makes_twice};

/// What an INSERT gives a new row.
#[derive(Clone, Copy)]
struct Given<'a> {
    /// The columns of its table.
    columns: &'a [Column],
    /// Those that are given, all of them where there is no list.
    named: &'a Option<Columns>,
    /// Their inputs.
    inputs: &'a [ReadyInput],
}

/// What an INSERT is answered, and what it does. The row that it makes has this number.
pub fn insert(
    with: Evaluation<'_>,
    basis: Basis<'_>,
    columns: &[Column],
    draws: Values,
    row: u64,
    named: &Option<Columns>,
    inputs: &ReadyInputs,
) -> Result<Decision, Memory>
    requires { IsBasis basis }
    ensures { let env = env_of with.entry in let view = view_of_basis basis.entry in
        let entries = map entry_of inputs.now in
        let new = new_row env columns.now draws row basis.entry.table named.now entries in
        IfOk result (λ d. Decides view
        (ruled basis.entry.table view draws (insert_causes env columns.now view draws new entries) (insert_effect new)) d) }
{
    let given = Given {
        columns,
        named,
        inputs: inputs.as_slice(),
    };
    let (new, faults) = new_row(with, given, draws.as_slice(), row, basis.table)?;
    match insert_fault(with, basis, columns, &new, faults)? {
        Some(fault) => Ok(refusal(fault, draws)),
        None => {
            let effect = insertion(with, new)?;
            Ok(done(basis.table, draws, effect))
        }
    }
}

/// The new row, and the faults of its inputs.
fn new_row(
    with: Evaluation<'_>,
    given: Given<'_>,
    draws: &[Value],
    row: u64,
    table: u32,
) -> Result<(Image, Faults), Memory>
    ensures image { IfOk result
        (λ r. r.0 ≡ new_row (env_of with.entry) given.entry.columns.now draws.now row table given.entry.named.now
        (map entry_of given.entry.inputs.now)) }
    ensures faults { IfOk result
        (λ r. r.1 ≡ any_fault (input_value (env_of with.entry) draws.now) (map entry_of given.entry.inputs.now)) }
{
    let (values, faults) = input_values(with, draws, given.inputs)?;
    let values = row_values(with.alloc, given.named, values.as_slice(), given.columns)?;
    let new = Image {
        row,
        table,
        left: Some(values),
    };
    Ok((new, faults))
}

/// The values of the inputs as the row keeps them, Null where one has a fault, and their faults.
fn input_values(
    with: Evaluation<'_>,
    draws: &[Value],
    inputs: &[ReadyInput],
) -> Result<(Values, Faults), Memory>
    ensures values { IfOk result (λ r. r.0 ≡ inputs_for (env_of with.entry) draws.now (map entry_of inputs.now)) }
    ensures faults { IfOk result (λ r. r.1 ≡ any_fault (input_value (env_of with.entry) draws.now) (map entry_of inputs.now)) }
{
    let mut faults = Faults::NONE;
    let mut values = List::new(with.alloc);
    for input in inputs {
        let (value, all) = input_value(with, draws, input, faults)?;
        values.push(stored(with.level, value))?;
        faults = all;
    }
    Ok((values, faults))
}

/// The value of an input, Null where it has a fault, and the faults with this one.
fn input_value(
    with: Evaluation<'_>,
    draws: &[Value],
    input: &ReadyInput,
    faults: Faults,
) -> Result<(Value, Faults), Memory>
    ensures value { IfOk result (λ r. r.0 ≡ sound (input_value (env_of with.entry) draws.now (entry_of input.now))) }
    ensures faults { IfOk result (λ r. r.1 ≡ noted faults (input_value (env_of with.entry) draws.now (entry_of input.now))) }
{
    match input {
        ReadyInput::Expr(expr) => evaluated(with, 0, with.no_values, expr, faults),
        ReadyInput::Next(sequence) => {
            let value = drawn_value(draws, *sequence)?;
            Ok((value, faults))
        }
    }
}

/// The values of a new row, one for each column.
fn row_values(
    alloc: Global,
    named: &Option<Columns>,
    inputs: &[Value],
    columns: &[Column],
) -> Result<Values, Memory>
    ensures { IfOk result (λ values. values ≡ row_values named.now inputs.now 0 columns.now) }
{
    let mut values = List::new(alloc);
    for number in 0..columns.len() {
        values.push(column_value(named, inputs, number)?)?;
    }
    Ok(values)
}

/// The value that is given for a column, Null where none is.
fn column_value(named: &Option<Columns>, inputs: &[Value], number: usize) -> Result<Value, Memory>
    ensures { IfOk result (λ value. value ≡ column_value named.now inputs.now number) }
{
    let Some(place) = input_place(named, number) else {
        return Ok(Value::Null);
    };
    match inputs.get(place) {
        Some(value) => value.copy(),
        None => Ok(Value::Null),
    }
}

/// The place of a column's input.
fn input_place(named: &Option<Columns>, number: usize) -> Option<usize>
    ensures { result ≡ input_place named.now number }
{
    match named {
        None => Some(number),
        Some(named) => place_among(named.as_slice(), number),
    }
}

fn place_among(named: &[u32], number: usize) -> Option<usize>
    ensures { result ≡ position (nat_eq number) named.now }
{
    named.iter().position(|column| number == *column as usize)
}

/// Why the new row may not be made, the faults of whose inputs these are.
fn insert_fault(
    with: Evaluation<'_>,
    basis: Basis<'_>,
    columns: &[Column],
    new: &Image,
    faults: Faults,
) -> Result<Option<Fault>, Memory>
    requires { IsBasis basis }
    ensures { let view = view_of_basis basis.entry in
        IfOk result (λ fault. fault ≡ ranked (new_causes (env_of with.entry) columns.now view faults new.now)) }
{
    let first = Causes::first(faults, is_full(&basis.session.own.changes));
    if let Some(fault) = first.ranked() {
        return Ok(Some(fault));
    }
    let duplicate = makes_twice(with, basis, new)?;
    let key = row_key(with, new);
    let locked = hold_key(with.level, basis.others, basis.table, key);
    let causes = Causes {
        locked,
        duplicate,
        ..first
    };
    let causes = tested(with, columns, slice::from_ref(new), causes);
    Ok(causes.ranked())
}

/// This row is made.
fn insertion(with: Evaluation<'_>, new: Image) -> Result<Effect, Memory>
    ensures { IfOk result (λ effect. effect ≡ insert_effect new) }
{
    let mut keys = List::new(with.alloc);
    keys.push(row_key(with, &new).copy()?)?;
    let mut rows = List::new(with.alloc);
    rows.push(new.row)?;
    let made = Some(new.row);
    let mut images = List::new(with.alloc);
    images.push(new)?;
    Ok(Effect {
        outcome: Outcome::Count(1),
        made,
        writing: Writing { images, rows, keys },
    })
}
