//! COUNT, SUM, MIN and MAX over the rows that match.

ghost use Rattle.std.specs.Prelude.{◌≡◌, ◌↔◌, pos, neg_ℤ, ◌+ℤ◌, ◌≤ℤ◌, ◌^◌, [], IfOk, IsErrOf};
ghost use Rattle.std.specs.Option.{option_copied, unwrap_or};
ghost use Rattle.std.specs.List.{cons_option, filter_map, reduce};
ghost use Rattle.std.specs.Result.{result_ok};
ghost use Rattle.sql_tree.specs.Plain.{term_of, total_of};
ghost use Rattle.sql_eval.specs.Faults.{noted};
ghost use Rattle.sql_eval.specs.Totals.{extreme_of, first_of, first_value, looked_at, number_in, number_order, over, part_in, sum_of, sum_value, text_in, tied_order, total_over};
ghost use Rattle.sql_eval.specs.Value.{IsTextOf};
ghost use Rattle.sql_eval.specs.Inside.ValueRef.{ref_outcome, ref_value};

use crate::error::EvalErr;
use crate::faults::Faults;
use crate::ready::{Checked, ReadyAgg};
use crate::value::{borrowed_value, owned};
use crate::value_ref::ValueRef;
use desk_values::{Binds, Fault, Image, Txt, Value, text_order};
use std::cmp::Ordering;

/// Which of many values is told.
#[derive(Clone, Copy, PartialEq, Eq)]
enum Extreme {
    /// That of MIN.
    Least,
    /// That of MAX.
    Greatest,
}

/// The total of a SELECT over the rows that match, in one pass, without a copy of a row.
///
/// `level` and `binds` are those of [`eval`](crate::eval); a row that is gone has no values. COUNT counts rows. SUM, MIN
/// and MAX skip Null, and are Null over no values. Of texts that are equal at the level MIN and MAX give the least by
/// bytes. MIN and MAX skip ids too, which have no order, and are Null over numbers and texts together: the checks let no
/// such part pass.
///
/// # Errors
///
/// The part is evaluated for every row. `Refused` has `ZeroDivisor` where it is that of some row, else `Overflow` where
/// it is that of some row or the sum leaves 64 bits, which is asked once, at its end. `Memory` comes only where the total
/// is a text, since only that is copied.
pub fn total(level: u32, rows: &[&Image], binds: &Binds, agg: &ReadyAgg) -> Result<Value, EvalErr>
    ensures ok { IfOk result (λ value. total_over level binds.now (total_of agg.now) (looked_at rows.now) ≡ Ok value) }
    ensures refused { (fault : Fault)
        → IsErrOf result (EvalErr.Refused fault) ↔ (total_over level binds.now (total_of agg.now) (looked_at rows.now) ≡ Err fault) }
    ensures memory { IsErrOf result EvalErr.Memory → IsTextOf (total_over level binds.now (total_of agg.now) (looked_at rows.now)) }
{
    owned(borrowed_total(level, rows, binds, agg))
}

/// The total, its text borrowed.
fn borrowed_total<'a>(
    level: u32,
    rows: &[&'a Image],
    binds: &'a Binds,
    agg: &'a ReadyAgg,
) -> Result<ValueRef<'a>, Fault>
    ensures { ref_outcome result ≡ total_over level binds.now (total_of agg.now) (looked_at rows.now) }
{
    match agg {
        ReadyAgg::Count => Ok(ValueRef::Int(rows.len() as i64)),
        ReadyAgg::Sum(part) => sum_over(level, rows, binds, part),
        ReadyAgg::Min(part) => extreme_over(level, Extreme::Least, rows, binds, part),
        ReadyAgg::Max(part) => extreme_over(level, Extreme::Greatest, rows, binds, part),
    }
}

/// The value of a part for one row.
fn part_value<'a>(
    level: u32,
    row: &'a Image,
    binds: &'a Binds,
    part: &'a Checked,
) -> Result<ValueRef<'a>, Fault>
    ensures { ref_outcome result ≡ part_in level binds.now (term_of part.now) row.now }
{
    let values = match &row.left {
        Some(values) => values.as_slice(),
        None => &[],
    };
    borrowed_value(level, row.row, values, binds, part)
}

/// The sum of a part over rows. Each number has 64 bits, so 128 bits hold the sum of as many as memory has room for.
#[tactic(auto, using(crate::proofs::TotalSteps::none_joined))]
fn sum_over<'a>(
    level: u32,
    rows: &[&'a Image],
    binds: &'a Binds,
    part: &'a Checked,
) -> Result<ValueRef<'a>, Fault>
    ensures { ref_outcome result ≡ over sum_of (part_in level binds.now (term_of part.now)) (looked_at rows.now) }
{
    let mut faults = Faults::NONE;
    let mut sum: Option<i128> = None;
    for row in rows {
        let outcome = part_value(level, row, binds, part);
        faults = with_fault(faults, outcome);
        sum = with_number(sum, outcome);
    }
    match faults.told() {
        Some(fault) => Err(fault),
        None => summed(sum),
    }
}

/// The least or the greatest value of a part over rows.
#[tactic(auto, using(crate::proofs::TotalSteps::none_joined))]
fn extreme_over<'a>(
    level: u32,
    extreme: Extreme,
    rows: &[&'a Image],
    binds: &'a Binds,
    part: &'a Checked,
) -> Result<ValueRef<'a>, Fault>
    ensures { ref_outcome result ≡ over
        (λ values. Ok (extreme_of level extreme values)) (part_in level binds.now (term_of part.now)) (looked_at rows.now) }
{
    let mut faults = Faults::NONE;
    let mut number: Option<i64> = None;
    let mut text: Option<&Txt> = None;
    for row in rows {
        let outcome = part_value(level, row, binds, part);
        faults = with_fault(faults, outcome);
        number = with_first_number(extreme, number, outcome);
        text = with_first_text(level, extreme, text, outcome);
    }
    match faults.told() {
        Some(fault) => Err(fault),
        None => Ok(told_value(number, text)),
    }
}

/// The faults, and that of one row more.
#[tactic(auto, using(crate::proofs::TotalSteps::noted_borrowed))]
fn with_fault(faults: Faults, outcome: Result<ValueRef<'_>, Fault>) -> Faults
    ensures { result ≡ noted faults (ref_outcome outcome.entry) }
{
    faults.noted(&outcome)
}

/// The sum, and one row more. Only a number counts.
fn with_number(sum: Option<i128>, outcome: Result<ValueRef<'_>, Fault>) -> Option<i128>
    requires low { neg_ℤ (pos (2 ^ 126)) ≤ℤ unwrap_or sum (pos 0) }
    requires high { unwrap_or sum (pos 0) ≤ℤ pos (2 ^ 126) }
    ensures least { (unwrap_or sum (pos 0) +ℤ neg_ℤ (pos (2 ^ 63))) ≤ℤ unwrap_or result (pos 0) }
    ensures most { unwrap_or result (pos 0) ≤ℤ (unwrap_or sum (pos 0) +ℤ pos (2 ^ 63)) }
    ensures sum { result
        ≡ reduce ◌+ℤ◌ (cons_option sum (filter_map number_in (cons_option (result_ok (ref_outcome outcome.entry)) []))) }
{
    match (sum, outcome) {
        (Some(sum), Ok(ValueRef::Int(number))) => Some(sum + number as i128),
        (None, Ok(ValueRef::Int(number))) => Some(number as i128),
        _ => sum,
    }
}

/// The sum as a value.
fn summed<'a>(sum: Option<i128>) -> Result<ValueRef<'a>, Fault>
    ensures { ref_outcome result ≡ sum_value sum }
{
    let Some(sum) = sum else {
        return Ok(ValueRef::Null);
    };
    if i64::MIN as i128 <= sum && sum <= i64::MAX as i128 {
        Ok(ValueRef::Int(sum as i64))
    } else {
        Err(Fault::Overflow)
    }
}

/// The first number, and one row more.
fn with_first_number(
    extreme: Extreme,
    first: Option<i64>,
    outcome: Result<ValueRef<'_>, Fault>,
) -> Option<i64>
    ensures { result
        ≡ reduce (first_of (number_order extreme))
        (cons_option first (filter_map number_in (cons_option (result_ok (ref_outcome outcome.entry)) []))) }
{
    match (first, outcome) {
        (Some(first), Ok(ValueRef::Int(number))) => Some(first_number(extreme, first, number)),
        (None, Ok(ValueRef::Int(number))) => Some(number),
        _ => first,
    }
}

fn first_number(extreme: Extreme, first: i64, number: i64) -> i64
    ensures { result ≡ first_of (number_order extreme) first number }
{
    let order = match extreme {
        Extreme::Least => first.cmp(&number),
        Extreme::Greatest => number.cmp(&first),
    };
    if order.is_gt() { number } else { first }
}

fn with_first_text<'a>(
    level: u32,
    extreme: Extreme,
    first: Option<&'a Txt>,
    outcome: Result<ValueRef<'a>, Fault>,
) -> Option<&'a Txt>
    ensures { option_copied result
        ≡ reduce (first_of (tied_order level extreme))
        (cons_option (option_copied first.entry) (filter_map text_in (cons_option (result_ok (ref_outcome outcome.entry)) []))) }
{
    match (first, outcome) {
        (Some(first), Ok(ValueRef::Text(text))) => Some(first_text(level, extreme, first, text)),
        (None, Ok(ValueRef::Text(text))) => Some(text),
        _ => first,
    }
}

#[tactic(auto, unfolding(crate::specs::Totals::tied_order))]
fn text_orders(level: u32, extreme: Extreme, a: &Txt, b: &Txt) -> Ordering
    ensures { result ≡ tied_order level extreme a.now b.now }
{
    let order = match extreme {
        Extreme::Least => text_order(level, a, b),
        Extreme::Greatest => text_order(level, b, a),
    };
    order.then(a.as_str().cmp(b.as_str()))
}

fn first_text<'a>(level: u32, extreme: Extreme, first: &'a Txt, text: &'a Txt) -> &'a Txt
    ensures { result.now ≡ first_of (tied_order level extreme) first.now text.now }
{
    if text_orders(level, extreme, first, text).is_gt() {
        text
    } else {
        first
    }
}

fn told_value<'a>(number: Option<i64>, text: Option<&'a Txt>) -> ValueRef<'a>
    ensures { ref_value result ≡ first_value number (option_copied text.entry) }
{
    match (number, text) {
        (Some(number), None) => ValueRef::Int(number),
        (None, Some(text)) => ValueRef::Text(text),
        _ => ValueRef::Null,
    }
}
