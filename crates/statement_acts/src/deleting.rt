//! What a DELETE does.

ghost use Rattle.std.specs.Prelude.{◌≡◌, [], map, IfOk};
ghost use Rattle.sql_tree.specs.Plain.{condition_of};
ghost use Rattle.sql_eval.specs.Totals.{looked_at};
ghost use Rattle.found_rows.specs.Evaluation.{env_of};
ghost use Rattle.server_words.specs.Causes.{ranked};
ghost use Rattle.server_words.specs.Rows.{row_key, row_numbers};
ghost use Rattle.server_words.specs.Writes.{gone};
ghost use Rattle.server_words.specs.Found.{matching};
ghost use Rattle.server_words.specs.Answer.{delete_causes, delete_effect, deletion, ruled};
ghost use Rattle.server_words.specs.Decision.{Decides};
ghost use Rattle.visited_rows.specs.Basis.{view_of_basis};
ghost use Rattle.visited_rows.specs.Basis.{IsBasis, rows_of_basis};

use crate::deciding::{done, refusal, row_numbers, touch_too_many};
use desk_values::{Copied, Fault, Image, List, Memory, Outcome, Values};
use found_rows::{Evaluation, row_key};
use machine_stores::hold_some_row;
use server_words::{Causes, Decision, Effect, Writing};
use sql_eval::Checked;
use std::alloc::Global;
use visited_rows::{Basis, visit};

/// What a DELETE is answered, and what it does.
pub fn delete(
    with: Evaluation<'_>,
    basis: Basis<'_>,
    condition: &Option<Checked>,
) -> Result<Decision, Memory>
    requires { IsBasis basis }
    ensures { let env = env_of with.entry in let view = view_of_basis basis.entry in
        IfOk result (λ d. Decides view
        (ruled basis.entry.table view [] (delete_causes env view (condition_of condition.now))
        (delete_effect env view (condition_of condition.now))) d) }
{
    let (found, fault) = judged(with, basis, condition)?;
    let draws = List::new(with.alloc);
    match fault {
        Some(fault) => Ok(refusal(fault, draws)),
        None => {
            let effect = deletion(with, &found)?;
            Ok(done(basis.table, draws, effect))
        }
    }
}

/// The rows that match, and why they may not go.
fn judged<'a>(
    with: Evaluation<'_>,
    basis: Basis<'a>,
    condition: &Option<Checked>,
) -> Result<(Vec<&'a Image>, Option<Fault>), Memory>
    requires { IsBasis basis }
    ensures found { IfOk result
        (λ r. looked_at r.0.items ≡ matching (env_of with.entry) (condition_of condition.now) (rows_of_basis basis.entry)) }
    ensures fault { IfOk result
        (λ r. r.1 ≡ ranked (delete_causes (env_of with.entry) (view_of_basis basis.entry) (condition_of condition.now))) }
{
    let (found, faults) = visit(with, basis, condition)?;
    let too_many = touch_too_many(&basis.session.own.changes, &found);
    let first = Causes::first(faults, too_many);
    if let Some(fault) = first.ranked() {
        return Ok((found, Some(fault)));
    }
    let locked = hold_some_row(basis.others, &found);
    let causes = Causes { locked, ..first };
    Ok((found, causes.ranked()))
}

/// These rows go.
fn deletion(with: Evaluation<'_>, found: &[&Image]) -> Result<Effect, Memory>
    ensures { IfOk result (λ effect. effect ≡ deletion (looked_at found.now)) }
{
    Ok(Effect {
        outcome: Outcome::Count(found.len() as u64),
        made: None,
        writing: Writing {
            images: gone_images(with.alloc, found)?,
            rows: row_numbers(with.alloc, found)?,
            keys: row_keys(with, found)?,
        },
    })
}

/// The rows as gone.
fn gone_images(alloc: Global, found: &[&Image]) -> Result<List<Image>, Memory>
    ensures { IfOk result (λ images. images ≡ map gone (looked_at found.now)) }
{
    let mut images = List::new(alloc);
    for image in found {
        images.push(Image {
            row: image.row,
            table: image.table,
            left: None,
        })?;
    }
    Ok(images)
}

/// Copies of the rows' keys.
fn row_keys(with: Evaluation<'_>, found: &[&Image]) -> Result<Values, Memory>
    ensures { IfOk result (λ keys. keys ≡ map row_key (looked_at found.now)) }
{
    let mut keys = List::new(with.alloc);
    for image in found {
        keys.push(row_key(with, *image).copy()?)?;
    }
    Ok(keys)
}
