//! Operators on values that are looked at and not copied.

ghost use Rattle.std.specs.Prelude.{◌≡◌, false};
ghost use Rattle.sql_eval.specs.Value.{both, worse, number, is_zero, is_across, quotient, of_numbers, arithmetic, minus, comparison, is_null_value};
ghost use Rattle.desk_values.specs.Comparison.{value_equal, value_order};
ghost use Rattle.sql_eval.specs.Inside.ValueRef.{ref_value, ref_outcome, ref_pair, computed_of};

use desk_values::{Fault, Txt, Value, text_order};
use sql_tree::Op;
use std::cmp::Ordering;

/// A value that is looked at without a copy of its text.
#[derive(Clone, Copy)]
pub(crate) enum ValueRef<'a> {
    Null,
    Int(i64),
    Text(&'a Txt),
    Row(u64),
    Draw(u32, u64),
}

/// The same value, its text borrowed.
pub(crate) fn borrowed(value: &Value) -> ValueRef<'_>
    ensures { ref_value result ≡ value.now }
{
    match value {
        Value::Null => ValueRef::Null,
        Value::Int(number) => ValueRef::Int(*number),
        Value::Text(text) => ValueRef::Text(text),
        Value::Row(row) => ValueRef::Row(*row),
        Value::Draw(sequence, value) => ValueRef::Draw(*sequence, *value),
    }
}

/// The worse of two faults.
pub(crate) fn worse_fault(fault: Fault, other: Fault) -> Fault
    ensures { result ≡ worse fault other }
{
    if fault == Fault::ZeroDivisor {
        fault
    } else {
        other
    }
}

/// The values of two parts, or the worse of their faults.
pub(crate) fn both_values<'a>(
    left: Result<ValueRef<'a>, Fault>,
    right: Result<ValueRef<'a>, Fault>,
) -> Result<(ValueRef<'a>, ValueRef<'a>), Fault>
    ensures { ref_pair result ≡ both (ref_outcome left.entry) (ref_outcome right.entry) }
{
    match (left, right) {
        (Ok(left), Ok(right)) => Ok((left, right)),
        (Ok(_), Err(fault)) => Err(fault),
        (Err(fault), Ok(_)) => Err(fault),
        (Err(fault), Err(other)) => Err(worse_fault(fault, other)),
    }
}

/// A computed number, where it is within 64 bits.
fn computed<'a>(number: Option<i64>) -> Result<ValueRef<'a>, Fault>
    ensures { ref_outcome result ≡ computed_of number }
{
    let number = number.ok_or(Fault::Overflow)?;
    Ok(ValueRef::Int(number))
}

/// What is left over is on the other side of 0 than the divisor.
#[tactic(auto, using(crate::proofs::Quotients::across_below, crate::proofs::Quotients::across_above))]
fn is_across(divisor: i64, rest: i64) -> bool
    ensures { result ≡ is_across divisor rest }
{
    if divisor < 0 { rest > 0 } else { rest < 0 }
}

/// The quotient by a number that is not 0, where it is within 64 bits.
fn quotient_of(level: u32, left: i64, right: i64) -> Option<i64>
    ensures { is_zero right ≡ false → computed_of result ≡ number (quotient level left right) }
{
    let quotient = left.checked_div(right)?;
    let rest = left.checked_rem(right)?;
    if level == 2 && is_across(right, rest) {
        quotient.checked_sub(1)
    } else {
        Some(quotient)
    }
}

/// `+ - * /` of two numbers.
#[tactic(auto, using(crate::proofs::Range::computed_is_number))]
fn number_arithmetic<'a>(level: u32, op: Op, left: i64, right: i64) -> Result<ValueRef<'a>, Fault>
    ensures { ref_outcome result ≡ of_numbers level op left right }
{
    match op {
        Op::Add => computed(left.checked_add(right)),
        Op::Sub => computed(left.checked_sub(right)),
        Op::Mul => computed(left.checked_mul(right)),
        Op::Div if right == 0 => Err(Fault::ZeroDivisor),
        Op::Div => computed(quotient_of(level, left, right)),
        _ => Ok(ValueRef::Null),
    }
}

/// `+ - * /` of two values, Null where one is Null.
pub(crate) fn arithmetic_of<'a>(
    level: u32,
    op: Op,
    left: ValueRef<'a>,
    right: ValueRef<'a>,
) -> Result<ValueRef<'a>, Fault>
    ensures { ref_outcome result ≡ arithmetic level op (ref_value left.entry) (ref_value right.entry) }
{
    match (left, right) {
        (ValueRef::Int(left), ValueRef::Int(right)) => number_arithmetic(level, op, left, right),
        _ => Ok(ValueRef::Null),
    }
}

/// Unary minus.
#[tactic(auto, using(crate::proofs::Range::computed_is_number))]
pub(crate) fn minus_of<'a>(operand: ValueRef<'a>) -> Result<ValueRef<'a>, Fault>
    ensures { ref_outcome result ≡ minus (ref_value operand.entry) }
{
    match operand {
        ValueRef::Int(number) => computed(number.checked_neg()),
        _ => Ok(ValueRef::Null),
    }
}

/// The order of two numbers or of two texts.
fn order_of(level: u32, left: ValueRef<'_>, right: ValueRef<'_>) -> Option<Ordering>
    ensures { result ≡ value_order level (ref_value left.entry) (ref_value right.entry) }
{
    match (left, right) {
        (ValueRef::Int(left), ValueRef::Int(right)) => Some(left.cmp(&right)),
        (ValueRef::Text(left), ValueRef::Text(right)) => Some(text_order(level, left, right)),
        _ => None,
    }
}

/// Whether two values of one kind are equal. Nobody knows of a Null.
fn equal_of(level: u32, left: ValueRef<'_>, right: ValueRef<'_>) -> Option<bool>
    ensures { result ≡ value_equal level (ref_value left.entry) (ref_value right.entry) }
{
    match (left, right) {
        (ValueRef::Row(left), ValueRef::Row(right)) => Some(left == right),
        (ValueRef::Draw(p, left), ValueRef::Draw(q, right)) => Some(p == q && left == right),
        _ => order_of(level, left, right).map(|order| order.is_eq()),
    }
}

/// `= <> < <= > >=` of two values, unknown where one is Null.
pub(crate) fn comparison_of(
    level: u32,
    op: Op,
    left: ValueRef<'_>,
    right: ValueRef<'_>,
) -> Option<bool>
    ensures { result ≡ comparison level op (ref_value left.entry) (ref_value right.entry) }
{
    match op {
        Op::Eq => equal_of(level, left, right),
        Op::Ne => equal_of(level, left, right).map(|equal| !equal),
        Op::Lt => order_of(level, left, right).map(|order| order.is_lt()),
        Op::Le => order_of(level, left, right).map(|order| order.is_le()),
        Op::Gt => order_of(level, left, right).map(|order| order.is_gt()),
        Op::Ge => order_of(level, left, right).map(|order| order.is_ge()),
        _ => None,
    }
}

/// Whether the value is Null.
pub(crate) fn is_null_of(operand: ValueRef<'_>) -> bool
    ensures { result ≡ is_null_value (ref_value operand.entry) }
{
    matches!(operand, ValueRef::Null)
}
