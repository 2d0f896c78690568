//! What a SELECT is answered, and what it holds.

ghost use Rattle.std.specs.Prelude.{◌≡◌, ◌||◌, ◌&&◌, ◌++◌, not, [], length, map, IfOk};
ghost use Rattle.std.specs.List.{list_any};
ghost use Rattle.sql_tree.specs.Plain.{asked_of, condition_of, term_of, total_of};
ghost use Rattle.sql_eval.specs.Totals.{looked_at, values_in};
ghost use Rattle.sql_eval.specs.Faults.{any_fault};
ghost use Rattle.found_rows.specs.Evaluation.{env_of};
ghost use Rattle.server_words.specs.Causes.{ranked};
ghost use Rattle.server_words.specs.Found.{matching, row_faults, values_for};
ghost use Rattle.server_words.specs.Answer.{are_totals, asked_faults, is_over, ruled, select_causes, select_effect, select_rows, selection, total_in, totals_in};
ghost use Rattle.server_words.specs.View.{is_held};
ghost use Rattle.server_words.specs.Decision.{Decides};
ghost use Rattle.visited_rows.specs.Basis.{view_of_basis};
ghost use Rattle.machine_stores.specs.Holds.{IsBeside};
ghost use Rattle.visited_rows.specs.Basis.{IsBasis, rows_of_basis};

use crate::deciding::{ROW_LIMIT, done, refusal, row_numbers};
use desk_values::{Copied, Fault, Image, List, Memory, Outcome, RowList, Values};
use found_rows::{Evaluation, ordered, total_value, values_for, values_of};
use machine_stores::hold_some_row;
use server_words::{Causes, Decision, Effect, Writing};
use sql_eval::{Checked, Faults, ReadyAgg, ReadyItems, ReadyKey, ReadyKeys};
use visited_rows::{Basis, visit};

/// What a SELECT is answered, and what it holds.
pub fn select(
    with: Evaluation<'_>,
    basis: Basis<'_>,
    items: &ReadyItems,
    condition: &Option<Checked>,
    keys: &ReadyKeys,
    for_update: bool,
) -> Result<Decision, Memory>
    requires { IsBasis basis }
    ensures { let env = env_of with.entry in let view = view_of_basis basis.entry in
        IfOk result (λ d. Decides view
        (ruled basis.entry.table view []
        (select_causes env view (asked_of items.now) (condition_of condition.now) for_update)
        (select_effect env view (asked_of items.now) (condition_of condition.now) keys.now for_update)) d) }
{
    let (found, fault) = judged(with, basis, items, condition, for_update)?;
    let draws = List::new(with.alloc);
    match fault {
        Some(fault) => Ok(refusal(fault, draws)),
        None => {
            let effect = selection(with, items, keys.as_slice(), for_update, found)?;
            Ok(done(basis.table, draws, effect))
        }
    }
}

/// The rows that match, and why they are not answered.
#[tactic(auto, using(crate::proofs::Sums::filtered))]
fn judged<'a>(
    with: Evaluation<'_>,
    basis: Basis<'a>,
    items: &ReadyItems,
    condition: &Option<Checked>,
    for_update: bool,
) -> Result<(Vec<&'a Image>, Option<Fault>), Memory>
    requires { IsBasis basis }
    ensures found { IfOk result
        (λ r. looked_at r.0.items ≡ matching (env_of with.entry) (condition_of condition.now) (rows_of_basis basis.entry)) }
    ensures fault { IfOk result
        (λ r. r.1 ≡ ranked
        (select_causes (env_of with.entry) (view_of_basis basis.entry) (asked_of items.now) (condition_of condition.now) for_update)) }
{
    let (found, faults) = visit(with, basis, condition)?;
    let faults = faults.joined(asked_faults(with, items, &found)?);
    let causes = Causes {
        divides: faults.divides,
        overflows: faults.overflows,
        too_many: are_too_many(basis, items, &found),
        locked: are_locked(basis, for_update, &found),
        ..Causes::none()
    };
    Ok((found, causes.ranked()))
}

/// Whether more than 1,000 rows would be answered, or the transaction has changed more than that.
fn are_too_many(basis: Basis<'_>, items: &ReadyItems, found: &[&Image]) -> bool
    ensures { result
        ≡ ((not (are_totals (asked_of items.now)) && is_over (length (looked_at found.now)))
        || is_over (length basis.entry.session.now.own.changes)) }
{
    let one_row = matches!(items, ReadyItems::Aggs(_));
    (!one_row && found.len() > ROW_LIMIT) || basis.session.own.changes.len() > ROW_LIMIT
}

/// Whether the rows are to be held, and another session holds one.
fn are_locked(basis: Basis<'_>, for_update: bool, found: &[&Image]) -> bool
    requires { IsBeside basis.others }
    ensures { result
        ≡ (for_update && list_any (is_held (basis.entry.others.before.now ++ basis.entry.others.after.now)) (looked_at found.now)) }
{
    for_update && hold_some_row(basis.others, found)
}

/// The faults of what is asked of the rows.
fn asked_faults(
    with: Evaluation<'_>,
    items: &ReadyItems,
    found: &[&Image],
) -> Result<Faults, Memory>
    ensures { IfOk result (λ faults. faults ≡ asked_faults (env_of with.entry) (asked_of items.now) (looked_at found.now)) }
{
    match items {
        ReadyItems::All => Ok(Faults::NONE),
        ReadyItems::Exprs(exprs) => row_faults(with, exprs.as_slice(), found),
        ReadyItems::Aggs(aggs) => total_faults(with, aggs.as_slice(), found),
    }
}

/// The faults of these expressions at any of the rows.
#[tactic(auto, using(crate::proofs::Sums::row_sums))]
fn row_faults(with: Evaluation<'_>, exprs: &[Checked], found: &[&Image]) -> Result<Faults, Memory>
    ensures { IfOk result (λ faults. faults ≡ row_faults (env_of with.entry) (map term_of exprs.now) (looked_at found.now)) }
{
    let mut faults = Faults::NONE;
    for image in found {
        let (_, all) = values_for(with, exprs, *image, faults)?;
        faults = all;
    }
    Ok(faults)
}

/// The faults of these totals.
#[tactic(auto, using(crate::proofs::Sums::total_sums))]
fn total_faults(with: Evaluation<'_>, aggs: &[ReadyAgg], found: &[&Image]) -> Result<Faults, Memory>
    ensures { IfOk result (λ faults. faults ≡ any_fault (total_in (env_of with.entry) (looked_at found.now)) (map total_of aggs.now)) }
{
    let mut faults = Faults::NONE;
    for agg in aggs {
        let (_, all) = total_value(with, agg, found, faults)?;
        faults = all;
    }
    Ok(faults)
}

/// What is answered of these rows, and held.
fn selection(
    with: Evaluation<'_>,
    items: &ReadyItems,
    keys: &[ReadyKey],
    for_update: bool,
    found: Vec<&Image>,
) -> Result<Effect, Memory>
    ensures { IfOk result
        (λ effect. effect ≡ selection (env_of with.entry) (asked_of items.now) keys.now for_update (looked_at found.entry.items)) }
{
    let rows = if for_update {
        row_numbers(with.alloc, &found)?
    } else {
        List::new(with.alloc)
    };
    let writing = Writing {
        images: List::new(with.alloc),
        rows,
        keys: List::new(with.alloc),
    };
    let outcome = Outcome::Rows(select_rows(with, items, keys, found)?);
    Ok(Effect {
        outcome,
        made: None,
        writing,
    })
}

/// One row of items for each row, in their order; or one row of totals.
fn select_rows(
    with: Evaluation<'_>,
    items: &ReadyItems,
    keys: &[ReadyKey],
    found: Vec<&Image>,
) -> Result<RowList, Memory>
    ensures { IfOk result (λ rows. rows ≡ select_rows (env_of with.entry) (asked_of items.now) keys.now (looked_at found.entry.items)) }
{
    match items {
        ReadyItems::All => column_rows(with, &ordered(with, keys, found)?),
        ReadyItems::Exprs(exprs) => {
            value_rows(with, exprs.as_slice(), &ordered(with, keys, found)?)
        }
        ReadyItems::Aggs(aggs) => {
            let mut rows = List::new(with.alloc);
            rows.push(total_row(with, aggs.as_slice(), &found)?)?;
            Ok(rows)
        }
    }
}

/// All columns of each row.
fn column_rows(with: Evaluation<'_>, found: &[&Image]) -> Result<RowList, Memory>
    ensures { IfOk result (λ rows. rows ≡ map values_in (looked_at found.now)) }
{
    let mut rows = List::new(with.alloc);
    for image in found {
        rows.push(values_of(with, *image).copy()?)?;
    }
    rows.fit();
    Ok(rows)
}

/// The values of these expressions for each row.
fn value_rows(with: Evaluation<'_>, exprs: &[Checked], found: &[&Image]) -> Result<RowList, Memory>
    ensures { IfOk result (λ rows. rows ≡ map (values_for (env_of with.entry) (map term_of exprs.now)) (looked_at found.now)) }
{
    let mut rows = List::new(with.alloc);
    for image in found {
        let (mut values, _) = values_for(with, exprs, *image, Faults::NONE)?;
        values.fit();
        rows.push(values)?;
    }
    rows.fit();
    Ok(rows)
}

/// One row of totals, Null where one has a fault.
fn total_row(with: Evaluation<'_>, aggs: &[ReadyAgg], found: &[&Image]) -> Result<Values, Memory>
    ensures { IfOk result (λ values. values ≡ totals_in (env_of with.entry) (looked_at found.now) (map total_of aggs.now)) }
{
    let mut values = List::new(with.alloc);
    for agg in aggs {
        let (value, _) = total_value(with, agg, found, Faults::NONE)?;
        values.push(value)?;
    }
    Ok(values)
}
