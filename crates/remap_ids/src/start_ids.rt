// The ids of a start's rows, each with itself.

ghost use Rattle.std.specs.Prelude.{◌≡◌, ◌∷◌, [], OnOk};
ghost use Rattle.std.specs.List.{flat_map};
ghost use Rattle.desk_values.specs.Ids.{ids_in, ids_of_image};
ghost use Rattle.id_pairs.specs.Pairs.{all_new, with_new};
ghost use Rattle.remap_ids.specs.IdMap.{own_pairs};

use crate::pairs::Pairs;
use desk_values::{Image, Memory, Value};
use id_pairs::Id;

/// Adds the ids of rows that have none yet.
pub(crate) fn add_rows(pairs: &mut Pairs, rows: &[Image]) -> Result<(), Memory>
    ensures { OnOk result (pairs.new.pairs ≡ all_new pairs.old.pairs (own_pairs (flat_map ids_of_image rows.now))) }
{
    for row in rows {
        add_row(pairs, row)?;
    }
    Ok(())
}

// Adds the row and the ids of its values.
fn add_row(pairs: &mut Pairs, row: &Image) -> Result<(), Memory>
    ensures { OnOk result (pairs.new.pairs ≡ all_new pairs.old.pairs (own_pairs (ids_of_image row.now))) }
{
    add_own(pairs, Id::Row(row.row))?;
    if let Some(values) = &row.left {
        add_values(pairs, values.as_slice())?;
    }
    Ok(())
}

// Adds the ids among values.
fn add_values(pairs: &mut Pairs, values: &[Value]) -> Result<(), Memory>
    ensures { OnOk result (pairs.new.pairs ≡ all_new pairs.old.pairs (own_pairs (ids_in values.now))) }
{
    for value in values {
        if let Some(id) = Id::of_value(value) {
            add_own(pairs, id)?;
        }
    }
    Ok(())
}

// Adds an id with itself, where it has no pair yet.
fn add_own(pairs: &mut Pairs, id: Id) -> Result<(), Memory>
    ensures { OnOk result (pairs.new.pairs ≡ with_new pairs.old.pairs (id, id)) }
{
    pairs.reserve(1)?;
    pairs.add(id, id);
    Ok(())
}
