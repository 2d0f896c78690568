//! The rows that match a condition, and expressions over rows.

ghost use Rattle.std.specs.Prelude.{◌≡◌, ◌++◌, ◌∷◌, [], map, if◌then◌else◌, IfOk, OnOk, Err, Some};
ghost use Rattle.desk_values.specs.declared.value.Value.{Value as AnyValue};
ghost use Rattle.sql_eval.specs.declared.logic.Truth.{Truth as AnyTruth};
ghost use Rattle.sql_tree.specs.Plain.{condition_of, term_of, total_of};
ghost use Rattle.sql_eval.specs.Faults.{any_fault, joined, noted};
ghost use Rattle.sql_eval.specs.Value.{value_of};
ghost use Rattle.sql_eval.specs.Totals.{looked_at, total_over, values_in};
ghost use Rattle.server_words.specs.Found.{is_true, matches, matching, sound, truth_in, value_in, values_for, where_faults};
ghost use Rattle.found_rows.specs.Evaluation.{env_of};

use crate::evaluation::Evaluation;
use desk_values::{Fault, Image, List, Memory, Value, Values};
use sql_eval::{Checked, EvalErr, Faults, ReadyAgg, Truth, eval, total, truth_of};

/// The values of a row, none where it is gone.
pub fn values_of<'a>(with: Evaluation<'a>, image: &'a Image) -> &'a Values
    ensures { result.now ≡ values_in image.now }
{
    match &image.left {
        Some(values) => values,
        None => with.no_values,
    }
}

fn truth_in(with: Evaluation<'_>, condition: &Checked, image: &Image) -> Result<Truth, Fault>
    ensures { result ≡ truth_in (env_of with.entry) (term_of condition.now) image.now }
{
    truth_of(
        with.level,
        image.row,
        values_of(with, image),
        with.binds,
        condition,
    )
}

/// Whether the row matches. A condition with a fault is not true.
pub fn is_match(with: Evaluation<'_>, condition: &Option<Checked>, image: &Image) -> bool
    ensures { result ≡ matches (env_of with.entry) (condition_of condition.now) image.now }
{
    match condition {
        None => true,
        Some(condition) => matches!(truth_in(with, condition, image), Ok(Truth::True)),
    }
}

/// The rows that match.
pub fn matching<'a>(
    with: Evaluation<'_>,
    condition: &Option<Checked>,
    rows: &[&'a Image],
) -> Result<Vec<&'a Image>, Memory>
    ensures { IfOk result
        (λ found. looked_at found.items ≡ matching (env_of with.entry) (condition_of condition.now) (looked_at rows.now)) }
{
    let mut found = Vec::new(with.alloc);
    for image in rows {
        if is_match(with, condition, image) {
            found.push(*image)?;
        }
    }
    Ok(found)
}

/// The rows that match, and the faults of the condition at any of the rows.
pub fn sifted<'a>(
    with: Evaluation<'_>,
    condition: &Option<Checked>,
    rows: &[&'a Image],
) -> Result<(Vec<&'a Image>, Faults), Memory>
    ensures rows { IfOk result
        (λ r. looked_at r.0.items ≡ matching (env_of with.entry) (condition_of condition.now) (looked_at rows.now)) }
    ensures faults { IfOk result (λ r. r.1 ≡ where_faults (env_of with.entry) (condition_of condition.now) (looked_at rows.now)) }
{
    match condition {
        None => Ok((matching(with, condition, rows)?, Faults::NONE)),
        Some(condition) => sifted_by(with, condition, rows),
    }
}

#[tactic(auto, using(crate::proofs::Adding::none_joined))]
fn sifted_by<'a>(
    with: Evaluation<'_>,
    condition: &Checked,
    rows: &[&'a Image],
) -> Result<(Vec<&'a Image>, Faults), Memory>
    ensures rows { IfOk result
        (λ r. looked_at r.0.items ≡ matching (env_of with.entry) (Some (term_of condition.now)) (looked_at rows.now)) }
    ensures faults { IfOk result (λ r. r.1 ≡ any_fault (truth_in (env_of with.entry) (term_of condition.now)) (looked_at rows.now)) }
{
    let mut found = Vec::new(with.alloc);
    let mut faults = Faults::NONE;
    for image in rows {
        let truth = truth_in(with, condition, image);
        keep_true(&mut found, truth, *image)?;
        faults = with_truth(faults, truth);
    }
    Ok((found, faults))
}

/// Keeps a row behind those found, where its truth is true.
fn keep_true<'a>(
    found: &mut Vec<&'a Image>,
    truth: Result<Truth, Fault>,
    image: &'a Image,
) -> Result<(), Memory>
    ensures { OnOk result (looked_at found.new.items ≡ looked_at found.old.items ++ (if is_true truth then image.now ∷ [] else [])) }
{
    if matches!(truth, Ok(Truth::True)) {
        found.push(image)?;
    }
    Ok(())
}

/// The faults with that of a truth.
fn with_truth(faults: Faults, truth: Result<Truth, Fault>) -> Faults
    ensures { result ≡ noted faults truth }
{
    match truth {
        Ok(_) => faults,
        Err(fault) => with_fault(faults, fault),
    }
}

/// The faults with one more.
#[tactic(auto, unfolding(sql_eval::specs::Faults::noted))]
fn with_fault(faults: Faults, fault: Fault) -> Faults
    ensures value { result ≡ noted {A = AnyValue} faults (Err fault) }
    ensures truth { result ≡ noted {A = AnyTruth} faults (Err fault) }
{
    Faults {
        divides: faults.divides || fault == Fault::ZeroDivisor,
        overflows: faults.overflows || fault == Fault::Overflow,
    }
}

/// The value of an expression, Null where it has a fault, and the faults with this one.
pub fn evaluated(
    with: Evaluation<'_>,
    row: u64,
    values: &Values,
    expr: &Checked,
    faults: Faults,
) -> Result<(Value, Faults), Memory>
    ensures value { IfOk result (λ r. r.0 ≡ sound (value_of with.entry.level row values.now with.entry.binds.now (term_of expr.now))) }
    ensures faults { IfOk result
        (λ r. r.1 ≡ noted faults (value_of with.entry.level row values.now with.entry.binds.now (term_of expr.now))) }
{
    match eval(with.alloc, with.level, row, values, with.binds, expr) {
        Ok(value) => Ok((value, faults)),
        Err(EvalErr::Refused(fault)) => Ok((Value::Null, with_fault(faults, fault))),
        Err(EvalErr::Memory) => Err(Memory),
    }
}

/// The values of expressions for a row, Null where one has a fault, and the faults with these.
pub fn values_for(
    with: Evaluation<'_>,
    exprs: &[Checked],
    image: &Image,
    faults: Faults,
) -> Result<(Values, Faults), Memory>
    ensures values { IfOk result (λ r. r.0 ≡ values_for (env_of with.entry) (map term_of exprs.now) image.now) }
    ensures faults { IfOk result
        (λ r. r.1 ≡ joined faults (any_fault (value_in (env_of with.entry) image.now) (map term_of exprs.now))) }
{
    let own = values_of(with, image);
    let mut faults = faults;
    let mut values = List::new(with.alloc);
    for expr in exprs {
        let (value, all) = evaluated(with, image.row, own, expr, faults)?;
        values.push(value)?;
        faults = all;
    }
    Ok((values, faults))
}

/// A total over rows, Null where it has a fault, and the faults with this one.
pub fn total_value(
    with: Evaluation<'_>,
    agg: &ReadyAgg,
    found: &[&Image],
    faults: Faults,
) -> Result<(Value, Faults), Memory>
    ensures value { IfOk result
        (λ r. r.0 ≡ sound (total_over with.entry.level with.entry.binds.now (total_of agg.now) (looked_at found.now))) }
    ensures faults { IfOk result
        (λ r. r.1 ≡ noted faults (total_over with.entry.level with.entry.binds.now (total_of agg.now) (looked_at found.now))) }
{
    match total(with.level, found, with.binds, agg) {
        Ok(value) => Ok((value, faults)),
        Err(EvalErr::Refused(fault)) => Ok((Value::Null, with_fault(faults, fault))),
        Err(EvalErr::Memory) => Err(Memory),
    }
}
