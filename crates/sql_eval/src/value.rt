ghost use Rattle.std.specs.Prelude.{◌≡◌, ◌↔◌, IfOk, IsErrOf, slice_get, unwrap_or};
ghost use Rattle.sql_eval.specs.Logic.{truth_of_test};
ghost use Rattle.sql_tree.specs.Plain.{term_of};
ghost use Rattle.sql_eval.specs.Inside.ValueRef.{ref_outcome, ref_value};
ghost use Rattle.sql_eval.specs.Value.{IsTextOf, bind_at, both, connected, is_connective, then_apply, truth_value, value_of};

use crate::error::EvalErr;
use crate::logic::Truth;
use crate::ready::Checked;
use crate::value_ref::{
    ValueRef, arithmetic_of, borrowed, both_values, comparison_of, is_null_of, minus_of,
    worse_fault,
};
use desk_values::{Binds, Copied, Fault, Value, Values};
use sql_tree::Op;
use std::alloc::Global;

/// The value of an expression for one row: Null, or of the kind that the checks gave the expression.
///
/// `level` is the level of the rules of values. Texts compare by [`text_order`](desk_values::text_order) of that level.
/// Division rounds toward minus infinity at level 2, else toward zero.
///
/// `row` is the id of the row. `values` are those of the columns that `e` was checked for, and `binds` are those that it
/// was checked with; one that is not there is Null. A condition has no value but a truth, which [`truth_of`] gives; here
/// it is Null.
///
/// # Errors
///
/// All parts are evaluated. `Refused` has `ZeroDivisor` where any part divides a number by zero, else `Overflow` where
/// a result of any part leaves 64 bits. `Memory` comes only where the value is a text, since only that is copied.
pub fn eval(
    alloc: Global,
    level: u32,
    row: u64,
    values: &Values,
    binds: &Binds,
    e: &Checked,
) -> Result<Value, EvalErr>
    ensures ok { IfOk result (λ value. value_of level row values.now binds.now (term_of e.now) ≡ Ok value) }
    ensures refused { (fault : Fault)
        → IsErrOf result (EvalErr.Refused fault) ↔ (value_of level row values.now binds.now (term_of e.now) ≡ Err fault) }
    ensures memory { IsErrOf result EvalErr.Memory → IsTextOf (value_of level row values.now binds.now (term_of e.now)) }
{
    let _ = alloc;
    owned(borrowed_value(level, row, values.as_slice(), binds, e))
}

/// The value itself, its text copied.
pub(crate) fn owned(outcome: Result<ValueRef<'_>, Fault>) -> Result<Value, EvalErr>
    ensures ok { IfOk result (λ value. ref_outcome outcome.entry ≡ Ok value) }
    ensures refused { (fault : Fault) → IsErrOf result (EvalErr.Refused fault) ↔ (ref_outcome outcome.entry ≡ Err fault) }
    ensures memory { IsErrOf result EvalErr.Memory → IsTextOf (ref_outcome outcome.entry) }
{
    match outcome {
        Ok(ValueRef::Null) => Ok(Value::Null),
        Ok(ValueRef::Int(number)) => Ok(Value::Int(number)),
        Ok(ValueRef::Text(text)) => Ok(Value::Text(text.copy()?)),
        Ok(ValueRef::Row(row)) => Ok(Value::Row(row)),
        Ok(ValueRef::Draw(sequence, value)) => Ok(Value::Draw(sequence, value)),
        Err(fault) => Err(EvalErr::Refused(fault)),
    }
}

/// The truth of a condition for one row. It takes no memory.
///
/// The arguments are those of [`eval`]. An expression that is no condition is unknown.
///
/// # Errors
///
/// As of [`eval`]: both sides of AND and OR are evaluated, whatever the truth of the first.
pub fn truth_of(
    level: u32,
    row: u64,
    values: &Values,
    binds: &Binds,
    e: &Checked,
) -> Result<Truth, Fault>
    ensures { result ≡ truth_value level row values.now binds.now (term_of e.now) }
{
    match e {
        Checked::Not(operand) => Ok(truth_of(level, row, values, binds, operand)?.negated()),
        Checked::Bin(op, left, right) => {
            if is_connective_op(*op) {
                let left = truth_of(level, row, values, binds, left);
                let right = truth_of(level, row, values, binds, right);
                connected_truths(*op, left, right)
            } else {
                let left = borrowed_value(level, row, values.as_slice(), binds, left);
                let right = borrowed_value(level, row, values.as_slice(), binds, right);
                let (left, right) = both_values(left, right)?;
                Ok(tested(comparison_of(level, *op, left, right)))
            }
        }
        Checked::IsNull(operand) => {
            let value = borrowed_value(level, row, values.as_slice(), binds, operand)?;
            Ok(tested(Some(is_null_of(value))))
        }
        Checked::NotNull(operand) => {
            let value = borrowed_value(level, row, values.as_slice(), binds, operand)?;
            Ok(tested(Some(!is_null_of(value))))
        }
        _ => Ok(Truth::Unknown),
    }
}

/// The value of an expression, its text borrowed.
pub(crate) fn borrowed_value<'a>(
    level: u32,
    row: u64,
    values: &'a [Value],
    binds: &'a Binds,
    expr: &'a Checked,
) -> Result<ValueRef<'a>, Fault>
    ensures { ref_outcome result ≡ value_of level row values.now binds.now (term_of expr.now) }
{
    match expr {
        Checked::Null => Ok(ValueRef::Null),
        Checked::Int(number) => Ok(ValueRef::Int(*number)),
        Checked::Text(text) => Ok(ValueRef::Text(text)),
        Checked::Bind(number) => Ok(bind_value(binds, *number)),
        Checked::Column(number) => Ok(column_value(values, *number)),
        Checked::RowId => Ok(ValueRef::Row(row)),
        Checked::Neg(operand) => minus_of(borrowed_value(level, row, values, binds, operand)?),
        Checked::Bin(op, left, right) => {
            let left = borrowed_value(level, row, values, binds, left);
            let right = borrowed_value(level, row, values, binds, right);
            let (left, right) = both_values(left, right)?;
            arithmetic_of(level, *op, left, right)
        }
        Checked::Not(_) | Checked::IsNull(_) | Checked::NotNull(_) => Ok(ValueRef::Null),
    }
}

/// The value of a bind by its number from 1.
fn bind_value(binds: &Binds, number: u32) -> ValueRef<'_>
    ensures { ref_value result ≡ unwrap_or (bind_at binds.now number) Value.Null }
{
    if number == 0 {
        return ValueRef::Null;
    }
    match binds.get((number - 1) as usize) {
        Some(value) => borrowed(value),
        None => ValueRef::Null,
    }
}

/// The value of a column by its number from 0.
fn column_value(values: &[Value], number: u32) -> ValueRef<'_>
    ensures { ref_value result ≡ unwrap_or (slice_get values.now number) Value.Null }
{
    match values.get(number as usize) {
        Some(value) => borrowed(value),
        None => ValueRef::Null,
    }
}

/// Whether the operator stands between two conditions.
fn is_connective_op(op: Op) -> bool
    ensures { result ≡ is_connective op }
{
    op == Op::And || op == Op::Or
}

/// `AND` or `OR` of two conditions. Both are evaluated, so a fault of either counts.
fn connected_truths(
    op: Op,
    left: Result<Truth, Fault>,
    right: Result<Truth, Fault>,
) -> Result<Truth, Fault>
    ensures { result ≡ then_apply (λ (p : Truth × Truth). Ok (connected op p.0 p.1)) (both left right) }
{
    match (left, right) {
        (Ok(left), Ok(right)) if op == Op::And => Ok(left.and(right)),
        (Ok(left), Ok(right)) => Ok(left.or(right)),
        (Ok(_), Err(fault)) => Err(fault),
        (Err(fault), Ok(_)) => Err(fault),
        (Err(fault), Err(other)) => Err(worse_fault(fault, other)),
    }
}

/// The truth of a test.
fn tested(test: Option<bool>) -> Truth
    ensures { result ≡ truth_of_test test }
{
    match test {
        Some(true) => Truth::True,
        Some(false) => Truth::False,
        None => Truth::Unknown,
    }
}
