//! What an UPDATE does.

ghost use Rattle.std.specs.Prelude.{◌≡◌, ◌∷◌, ◌++◌, ◌||◌, [], true, length, map, IfOk, OnOk};
ghost use Rattle.sql_tree.specs.Plain.{change_of, condition_of};
ghost use Rattle.sql_eval.specs.Faults.{any_fault, joined};
ghost use Rattle.sql_eval.specs.Totals.{looked_at};
ghost use Rattle.found_rows.specs.Evaluation.{env_of};
ghost use Rattle.machine_stores.specs.Holds.{IsBeside};
ghost use Rattle.visited_rows.specs.Basis.{IsBasis, rows_of_basis};
ghost use Rattle.desk_values.specs.declared.call.Outcome.TheVariants.{Count};
ghost use Rattle.server_words.specs.Causes.{ranked};
ghost use Rattle.statement_acts.specs.Inside.FirstCauses.{meets_hold, update_first};
ghost use Rattle.server_words.specs.Found.{matching, row_faults, value_in};
ghost use Rattle.server_words.specs.Rows.{lay, row_key, row_numbers};
ghost use Rattle.server_words.specs.Writes.{keys_moved, moved_keys, repeats_key, sources, updated};
ghost use Rattle.server_words.specs.Answer.{meets_lock, ruled, update_causes, update_effect};
ghost use Rattle.server_words.specs.Decision.{Decides};
ghost use Rattle.visited_rows.specs.Basis.{view_of_basis};

use crate::deciding::{done, refusal, row_numbers, touch_too_many};
use desk_schema::Column;
use desk_values::{Copied, Fault, Image, List, Memory, Outcome, Values};
use found_rows::{Evaluation, evaluated, row_key, same_row_key, stored, tested, values_of};
use machine_stores::{hold_key, hold_some_row};
use server_words::{Causes, Decision, Effect, Writing};
use sql_eval::{Checked, Faults, ReadySets, ReadySetting};
use std::alloc::Global;
use visited_rows::{Basis, keys_differ, leaves_twice, visit};

/// What an UPDATE says.
#[derive(Clone, Copy)]
struct Says<'a> {
    /// The columns of its table.
    columns: &'a [Column],
    /// The new values.
    settings: &'a [ReadySetting],
    /// Which rows get them.
    condition: &'a Option<Checked>,
}

/// Rows of an UPDATE as it leaves them.
#[derive(Drop)]
struct Changed {
    /// The new images.
    images: Vec<Image>,
    /// The old and the new keys of those whose key changes.
    keys: Values,
    /// Another session holds one of the rows, or a key that a row moves to.
    locked: bool,
}

/// What an UPDATE is answered, and what it does.
pub fn update(
    with: Evaluation<'_>,
    basis: Basis<'_>,
    columns: &[Column],
    settings: &ReadySets,
    condition: &Option<Checked>,
) -> Result<Decision, Memory>
    requires { IsBasis basis }
    ensures { let env = env_of with.entry in let view = view_of_basis basis.entry in
        let changes = map change_of settings.now in
        IfOk result (λ d. Decides view
        (ruled basis.entry.table view [] (update_causes env columns.now view changes (condition_of condition.now))
        (update_effect env view changes (condition_of condition.now))) d) }
{
    let says = Says {
        columns,
        settings: settings.as_slice(),
        condition,
    };
    let draws = List::new(with.alloc);
    let (found, first) = first_causes(with, basis, says)?;
    if let Some(fault) = first.ranked() {
        return Ok(refusal(fault, draws));
    }
    let changed = changed_rows(with, basis, says.settings, &found)?;
    match update_fault(with, basis, says, &changed, first)? {
        Some(fault) => Ok(refusal(fault, draws)),
        None => {
            let effect = changing(with.alloc, &found, changed)?;
            Ok(done(basis.table, draws, effect))
        }
    }
}

/// The rows that match, and the causes that are found first.
fn first_causes<'a>(
    with: Evaluation<'_>,
    basis: Basis<'a>,
    says: Says<'_>,
) -> Result<(Vec<&'a Image>, Causes), Memory>
    requires { IsBasis basis }
    ensures found { IfOk result
        (λ r. looked_at r.0.items
        ≡ matching (env_of with.entry) (condition_of says.entry.condition.now) (rows_of_basis basis.entry)) }
    ensures first { IfOk result
        (λ r. r.1 ≡ update_first (env_of with.entry) (view_of_basis basis.entry)
        (map change_of says.entry.settings.now) (condition_of says.entry.condition.now) (looked_at r.0.items)) }
{
    let (found, faults) = visit(with, basis, says.condition)?;
    let faults = all_faults(with, says.settings, &found, faults)?;
    let too_many = touch_too_many(&basis.session.own.changes, &found);
    Ok((found, Causes::first(faults, too_many)))
}

/// The faults with those of the settings for these rows.
fn all_faults(
    with: Evaluation<'_>,
    settings: &[ReadySetting],
    found: &[&Image],
    faults: Faults,
) -> Result<Faults, Memory>
    ensures { IfOk result
        (λ all. all ≡ joined faults (row_faults (env_of with.entry) (sources (map change_of settings.now)) (looked_at found.now))) }
{
    let mut faults = faults;
    for image in found {
        faults = setting_faults(with, settings, *image, faults)?;
    }
    Ok(faults)
}

/// Why the rows that match may not be changed so.
fn update_fault(
    with: Evaluation<'_>,
    basis: Basis<'_>,
    says: Says<'_>,
    changed: &Changed,
    first: Causes,
) -> Result<Option<Fault>, Memory>
    requires is_basis { IsBasis basis }
    requires first { let env = env_of with in let view = view_of_basis basis in
        let condition = condition_of says.condition.now in
        first ≡ update_first env view (map change_of says.settings.now) condition (matching env condition view.rows) }
    requires images { let env = env_of with in
        changed.now.images.items
        ≡ map (updated env (map change_of says.settings.now))
        (matching env (condition_of says.condition.now) (view_of_basis basis).rows) }
    requires locked { let env = env_of with in let view = view_of_basis basis in
        changed.now.locked
        ≡ meets_hold (basis.others.before.now ++ basis.others.after.now) env view
        (map change_of says.settings.now) (matching env (condition_of says.condition.now) view.rows) }
    requires keys { let env = env_of with in
        changed.now.keys
        ≡ moved_keys env (map change_of says.settings.now)
        (matching env (condition_of says.condition.now) (view_of_basis basis).rows) }
    ensures { IfOk result
        (λ fault. fault
        ≡ ranked (update_causes (env_of with.entry) says.entry.columns.now (view_of_basis basis.entry)
        (map change_of says.entry.settings.now) (condition_of says.entry.condition.now))) }
{
    let duplicate = leaves_duplicate(with, basis, says, changed)?;
    let images = changed.images.as_slice();
    let causes = Causes {
        locked: changed.locked,
        duplicate,
        ..first
    };
    let causes = tested(with, says.columns, images, causes);
    Ok(causes.ranked())
}

/// Whether two rows have one key behind the UPDATE. Where it moves none, and none was there twice, it does not look.
fn leaves_duplicate(
    with: Evaluation<'_>,
    basis: Basis<'_>,
    says: Says<'_>,
    changed: &Changed,
) -> Result<bool, Memory>
    requires is_basis { IsBasis basis }
    requires images { let env = env_of with in
        changed.now.images.items
        ≡ map (updated env (map change_of says.settings.now))
        (matching env (condition_of says.condition.now) (view_of_basis basis).rows) }
    requires keys { let env = env_of with in
        changed.now.keys
        ≡ moved_keys env (map change_of says.settings.now)
        (matching env (condition_of says.condition.now) (view_of_basis basis).rows) }
    ensures { IfOk result
        (λ b. b ≡ repeats_key with.entry.level (map row_key (lay (rows_of_basis basis.entry) changed.now.images.items))) }
{
    if moves_no_key(changed) && keys_differ(with, basis) {
        return Ok(false);
    }
    leaves_twice(with, basis, changed.images.as_slice())
}

fn moves_no_key(changed: &Changed) -> bool
    ensures { result ≡ true → changed.now.keys ≡ [] }
{
    changed.keys.is_empty()
}

/// The faults with those of the settings for a row.
fn setting_faults(
    with: Evaluation<'_>,
    settings: &[ReadySetting],
    image: &Image,
    faults: Faults,
) -> Result<Faults, Memory>
    ensures { IfOk result
        (λ all. all ≡ joined faults (any_fault (value_in (env_of with.entry) image.now) (sources (map change_of settings.now)))) }
{
    let own = values_of(with, image);
    let mut faults = faults;
    for setting in settings {
        let (_, all) = evaluated(with, image.row, own, &setting.to, faults)?;
        faults = all;
    }
    Ok(faults)
}

/// The row with its new values as it keeps them, all of which are taken of the old ones.
fn updated(with: Evaluation<'_>, settings: &[ReadySetting], image: &Image) -> Result<Image, Memory>
    ensures { IfOk result (λ new. new ≡ updated (env_of with.entry) (map change_of settings.now) image.now) }
{
    let own = values_of(with, image);
    let mut values = own.copy()?.into_vec();
    for setting in settings {
        let (value, _) = evaluated(with, image.row, own, &setting.to, Faults::NONE)?;
        let column = setting.column as usize;
        if column < values.len() {
            values[column] = stored(with.level, value);
        }
    }
    Ok(Image {
        row: image.row,
        table: image.table,
        left: Some(List::from_vec(values)),
    })
}

/// These rows as the UPDATE leaves them.
fn changed_rows(
    with: Evaluation<'_>,
    basis: Basis<'_>,
    settings: &[ReadySetting],
    found: &[&Image],
) -> Result<Changed, Memory>
    requires { IsBeside basis.others }
    ensures images { IfOk result
        (λ changed. changed.images.items ≡ map (updated (env_of with.entry) (map change_of settings.now)) (looked_at found.now)) }
    ensures keys { IfOk result
        (λ changed. changed.keys ≡ moved_keys (env_of with.entry) (map change_of settings.now) (looked_at found.now)) }
    ensures locked { IfOk result
        (λ changed. changed.locked
        ≡ meets_hold (basis.entry.others.before.now ++ basis.entry.others.after.now) (env_of with.entry)
        (view_of_basis basis.entry) (map change_of settings.now) (looked_at found.now)) }
{
    let mut changed = Changed {
        images: Vec::new(with.alloc),
        keys: List::new(with.alloc),
        locked: hold_some_row(basis.others, found),
    };
    for image in found {
        change_row(with, basis, settings, *image, &mut changed)?;
    }
    Ok(changed)
}

/// Adds a row as the UPDATE leaves it.
fn change_row(
    with: Evaluation<'_>,
    basis: Basis<'_>,
    settings: &[ReadySetting],
    image: &Image,
    changed: &mut Changed,
) -> Result<(), Memory>
    requires { IsBeside basis.others }
    ensures images { OnOk result
        (changed.new.images.items ≡ changed.old.images.items
        ++ updated (env_of with.entry) (map change_of settings.now) image.now ∷ []) }
    ensures keys { OnOk result
        (changed.new.keys ≡ changed.old.keys ++ keys_moved (env_of with.entry) (map change_of settings.now) image.now) }
    ensures locked { OnOk result
        (changed.new.locked
        ≡ (changed.old.locked || meets_lock (env_of with.entry) (view_of_basis basis.entry) (map change_of settings.now) image.now)) }
{
    let new = updated(with, settings, image)?;
    if !same_row_key(with, image, &new) {
        let key = row_key(with, &new);
        changed.keys.push(row_key(with, image).copy()?)?;
        changed.keys.push(key.copy()?)?;
        changed.locked |= hold_key(with.level, basis.others, basis.table, key);
    }
    changed.images.push(new)?;
    Ok(())
}

/// These rows are changed so.
fn changing(alloc: Global, found: &[&Image], changed: Changed) -> Result<Effect, Memory>
    ensures { IfOk result
        (λ effect. effect
        ≡ record {
          outcome = Count (length (looked_at found.now));
          made = None;
          writing = record { images = changed.images.items; rows = row_numbers (looked_at found.now); keys = changed.keys };
        }) }
{
    Ok(Effect {
        outcome: Outcome::Count(found.len() as u64),
        made: None,
        writing: Writing {
            images: List::from_vec(changed.images),
            rows: row_numbers(alloc, found)?,
            keys: changed.keys,
        },
    })
}
