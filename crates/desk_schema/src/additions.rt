ghost use Rattle.std.specs.Prelude.{◌≡◌, ◌-◌, ◌<◌, ◌++◌, ◌∷◌, [], IfOk, OnOk, OnErr, vec_len};
ghost use Rattle.std.specs.Bool.{OnTrue, OnFalse};
ghost use Rattle.std.specs.List.{Contains};
ghost use Rattle.desk_schema.specs.State.{with_column};
ghost use Rattle.desk_schema.specs.Inside.Keys.{row_key, IsWith};
ghost use Rattle.desk_schema.specs.Rules.{last_columns};

use crate::keys::{KeySet, RowKey};
use crate::schema::{Column, Table};
use desk_values::{Image, Memory, Txt};

/// The columns so far of the last table.
pub(crate) fn last_columns(tables: &[Table]) -> &[Column]
    ensures { result.now ≡ last_columns tables.now }
{
    match tables.last() {
        Some(table) => table.columns.as_slice(),
        None => &[],
    }
}

/// Adds a sequence's name and its next value. An `Err` changes nothing.
pub(crate) fn push_sequence(
    names: &mut Vec<Txt>,
    name: Txt,
    nexts: &mut Vec<u64>,
    next: u64,
) -> Result<(), Memory>
    ensures name { OnOk result (names.new.items ≡ names.old.items ++ name ∷ []) }
    ensures next { OnOk result (nexts.new.items ≡ nexts.old.items ++ next ∷ []) }
    ensures same_names { OnErr result (names.new.items ≡ names.old.items) }
    ensures same_nexts { OnErr result (nexts.new.items ≡ nexts.old.items) }
{
    nexts.reserve(1)?;
    names.push(name)?;
    nexts.push(next)?;
    Ok(())
}

/// Adds a column to the last table. An `Err` changes nothing.
pub(crate) fn push_column(tables: &mut Vec<Table>, column: Column) -> Result<(), Memory>
    requires { 0 < vec_len tables.old }
    ensures ok { OnOk result (tables.new.items ≡ with_column tables.old.items column) }
    ensures err { OnErr result (tables.new.items ≡ tables.old.items) }
{
    let last = tables.len() - 1;
    tables[last].columns.push(column)?;
    Ok(())
}

/// Adds a row where its key is new, and tells whether it is. An `Err` changes nothing.
pub(crate) fn push_row(
    rows: &mut Vec<Image>,
    row: Image,
    keys: &mut KeySet,
    key: RowKey,
) -> Result<bool, Memory>
    ensures row { IfOk result (λ added. OnTrue added (rows.new.items ≡ rows.old.items ++ row ∷ [])) }
    ensures key { IfOk result (λ added. OnTrue added (IsWith keys.old keys.new (row_key key))) }
    ensures new { IfOk result (λ added. OnTrue added (¬ Contains keys.old (row_key key))) }
    ensures present { IfOk result (λ added. OnFalse added (Contains keys.old (row_key key))) }
    ensures same_row { IfOk result (λ added. OnFalse added (rows.new.items ≡ rows.old.items)) }
    ensures same_key { IfOk result (λ added. OnFalse added (keys.new ≡ keys.old)) }
    ensures err_row { OnErr result (rows.new.items ≡ rows.old.items) }
    ensures err_key { OnErr result (keys.new ≡ keys.old) }
{
    rows.reserve(1)?;
    if !keys.insert(key)? {
        return Ok(false);
    }
    rows.push(row)?;
    Ok(true)
}
