//! From what is wrong with a statement, or what it does, to its decision.

ghost use Rattle.std.specs.Prelude.{◌≡◌, ◌+◌, ◌≤◌, [], length, not, IfOk};
ghost use Rattle.std.specs.List.{filter};
ghost use Rattle.desk_values.specs.declared.value.Image.{Image as AnyImage};
ghost use Rattle.sql_eval.specs.Totals.{looked_at};
ghost use Rattle.server_words.specs.Rows.{row_numbers};
ghost use Rattle.server_words.specs.Step.{committed_in};
ghost use Rattle.server_words.specs.View.{View};
ghost use Rattle.server_words.specs.Writes.{is_among};
ghost use Rattle.server_words.specs.Answer.{done, is_over, refused, too_many_rows};
ghost use Rattle.server_words.specs.Decision.{Decides};

use desk_values::{Fault, Image, List, Memory, Outcome, Reply, Values};
use server_words::{Decision, Deed, Effect, Rows};
use std::alloc::Global;

/// The greatest number of rows that a statement may touch, and of those that a transaction may change.
pub const ROW_LIMIT: usize = 1000;

/// The statement is refused, and does nothing. What it drew stays drawn.
pub fn refusal(fault: Fault, draws: Values) -> Decision
    ensures { (view : View) → Decides view (refused view draws fault) result }
{
    Decision {
        reply: Reply {
            outcome: Outcome::Refused(fault),
            draws,
            made: None,
        },
        deed: Deed::Nothing,
    }
}

/// The statement has this effect in its table.
pub fn done(table: u32, draws: Values, effect: Effect) -> Decision
    requires { committed_in effect.outcome ≡ [] }
    ensures { (view : View) → Decides view (done table view draws effect) result }
{
    Decision {
        reply: Reply {
            outcome: effect.outcome,
            draws,
            made: effect.made,
        },
        deed: Deed::Writes(table, effect.writing),
    }
}

/// Whether a statement that changes these rows touches more than 1,000, or its transaction would change more.
pub fn touch_too_many(changes: &Rows, found: &[&Image]) -> bool
    ensures { result ≡ too_many_rows changes.now (looked_at found.now) }
{
    found.len() > ROW_LIMIT
        || changes.len() > ROW_LIMIT
        || changes.len() + count_unchanged(changes, found) > ROW_LIMIT
}

/// Whether one more changed row would be more than a transaction may have.
pub fn is_full(changes: &Rows) -> bool
    ensures { result ≡ is_over (length changes.now + 1) }
{
    changes.len() >= ROW_LIMIT
}

/// How many of the rows have no image among the changes.
fn count_unchanged(changes: &Rows, found: &[&Image]) -> usize
    ensures count { result ≡ length (filter (λ (image : AnyImage). not (is_among changes.now image)) (looked_at found.now)) }
    ensures limit { result ≤ length found.now }
{
    let mut count = 0;
    for image in found {
        if !is_among(changes, *image) {
            count += 1;
        }
    }
    count
}

/// Whether the row has an image among the changes.
fn is_among(changes: &Rows, image: &Image) -> bool
    ensures { result ≡ is_among changes.now image.now }
{
    let changes = changes.as_slice();
    match changes.binary_search_by_key(&image.row, |change| change.row) {
        Ok(_) => true,
        Err(_) => false,
    }
}

/// The numbers of the rows.
pub fn row_numbers(alloc: Global, rows: &[&Image]) -> Result<List<u64>, Memory>
    ensures { IfOk result (λ numbers. numbers ≡ row_numbers (looked_at rows.now)) }
{
    let mut numbers = List::new(alloc);
    for image in rows {
        numbers.push(image.row)?;
    }
    Ok(numbers)
}
