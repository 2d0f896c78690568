//! Parts of a condition: which have one value for all rows, and which can have no fault.

ghost use Rattle.std.specs.Prelude.{◌≡◌, [], IfOk};
ghost use Rattle.std.specs.Result.{is_ok};
ghost use Rattle.sql_tree.specs.Plain.{term_of};
ghost use Rattle.sql_eval.specs.Value.{value_of};
ghost use Rattle.key_conditions.specs.Sought.{can_fail, constant_value, is_computed, is_constant, is_key, is_sound};

use desk_values::{Binds, List, Memory, Value};
use sql_eval::{Checked, EvalErr, eval};
use sql_tree::Op;
use std::alloc::Global;

fn can_fail(op: Op) -> bool
    ensures { result ≡ can_fail op }
{
    matches!(op, Op::Add | Op::Sub | Op::Mul | Op::Div)
}

/// Whether the part is the column that tells rows apart.
pub fn is_key(e: &Checked) -> bool
    ensures { result ≡ is_key (term_of e.now) }
{
    match e {
        Checked::Column(number) => *number == 0,
        _ => false,
    }
}

/// Whether the part has one value for all rows: no column and no ROWID stands in it, but within a condition.
fn is_constant(e: &Checked) -> bool
    ensures { result ≡ is_constant (term_of e.now) }
{
    match e {
        Checked::Column(_) | Checked::RowId => false,
        Checked::Neg(operand) => is_constant(operand),
        Checked::Bin(_, left, right) => is_constant(left) && is_constant(right),
        _ => true,
    }
}

/// The value of a part that is one for all rows, where it has no fault.
pub fn constant_value(
    alloc: Global,
    level: u32,
    binds: &Binds,
    e: &Checked,
) -> Result<Option<Value>, Memory>
    ensures { IfOk result (λ value. value ≡ constant_value level binds.now (term_of e.now)) }
{
    if !is_constant(e) {
        return Ok(None);
    }
    match eval(alloc, level, 0, &List::new(alloc), binds, e) {
        Ok(value) => Ok(Some(value)),
        Err(EvalErr::Refused(_)) => Ok(None),
        Err(EvalErr::Memory) => Err(Memory),
    }
}

/// Whether a part has a value that is one for all rows.
fn is_computed(alloc: Global, level: u32, binds: &Binds, e: &Checked) -> bool
    ensures { result ≡ is_computed level binds.now (term_of e.now) }
{
    is_constant(e) && has_value(alloc, level, binds, e)
}

/// Whether a part that is one for all rows has no fault. Want of memory says that it has a text for a value.
fn has_value(alloc: Global, level: u32, binds: &Binds, e: &Checked) -> bool
    ensures { result ≡ is_ok (value_of level 0 [] binds.now (term_of e.now)) }
{
    match eval(alloc, level, 0, &List::new(alloc), binds, e) {
        Ok(_) | Err(EvalErr::Memory) => true,
        Err(EvalErr::Refused(_)) => false,
    }
}

/// Whether no row can give the part a fault.
pub fn is_sound(alloc: Global, level: u32, binds: &Binds, e: &Checked) -> bool
    ensures { result ≡ is_sound level binds.now (term_of e.now) }
{
    match e {
        Checked::Neg(_) => is_computed(alloc, level, binds, e),
        Checked::Not(operand) => is_sound(alloc, level, binds, operand),
        Checked::Bin(op, left, right) => {
            if can_fail(*op) {
                is_computed(alloc, level, binds, e)
            } else {
                is_sound(alloc, level, binds, left) && is_sound(alloc, level, binds, right)
            }
        }
        Checked::IsNull(operand) => is_sound(alloc, level, binds, operand),
        Checked::NotNull(operand) => is_sound(alloc, level, binds, operand),
        _ => true,
    }
}
