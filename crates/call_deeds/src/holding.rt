//! The rows and keys that a session comes to hold, and those that it holds no more.

ghost use Rattle.std.specs.Prelude.{◌≡◌, ◌++◌, ℕ, List as Sequence, [], true, nat_eq, OnOk, OnErr};
ghost use Rattle.std.specs.List.{list_any};
ghost use Rattle.hold_index.specs.Told.{PrintsMove, RowsMove};
ghost use Rattle.server_words.specs.declared.session.HeldKey.{HeldKey as AnyKey};
ghost use Rattle.server_words.specs.State.{nothing};
ghost use Rattle.machine_stores.specs.Holds.{HoldsMove, prints_of};
ghost use Rattle.call_deeds.specs.Inside.Holds.{HoldsPrints, HoldsRows};
ghost use Rattle.server_words.specs.Writes.{with_row, with_rows, with_key, with_keys, is_held_key};

use desk_values::{Copied, List, Memory, Value, same_key};
use hold_index::HoldIndex;
use machine_stores::stands_among;
use server_words::{HeldKey, Transaction};

/// The session holds these rows too. An `Err` may have added some.
pub fn hold_rows(
    held: &mut List<u64>,
    holds: &mut HoldIndex,
    session: u32,
    rows: &[u64],
) -> Result<(), Memory>
    requires { HoldsRows holds.old session held.old }
    ensures ok { OnOk result (held.new ≡ with_rows held.old rows.now) }
    ensures front { (more : Sequence ℕ) × (held.new ≡ held.old ++ more) }
    ensures told { RowsMove holds.old holds.new session held.old held.new }
{
    for row in rows {
        hold_one_row(held, holds, session, *row)?;
    }
    Ok(())
}

/// The session holds this row too. An `Err` adds none.
fn hold_one_row(
    held: &mut List<u64>,
    holds: &mut HoldIndex,
    session: u32,
    row: u64,
) -> Result<(), Memory>
    requires { HoldsRows holds.old session held.old }
    ensures ok { OnOk result (held.new ≡ with_row held.old row) }
    ensures err { OnErr result (held.new ≡ held.old) }
    ensures told { RowsMove holds.old holds.new session held.old held.new }
{
    if has_row(held, holds, session, row) {
        return Ok(());
    }
    held.push(row)?;
    holds.hold_row(session, row);
    Ok(())
}

/// Whether the session holds this row.
fn has_row(held: &List<u64>, holds: &HoldIndex, session: u32, row: u64) -> bool
    requires { HoldsRows holds.now session held.now }
    ensures { result ≡ list_any (nat_eq row) held.now }
{
    if holds.is_kept() {
        return holds.tells_row(session, row);
    }
    stands_among(row, held.as_slice())
}

/// The session holds these keys of a table too. An `Err` may have added some.
pub fn hold_keys(
    held: &mut List<HeldKey>,
    holds: &mut HoldIndex,
    session: u32,
    table: u32,
    keys: &[Value],
) -> Result<(), Memory>
    requires { HoldsPrints holds.old session (prints_of held.old) }
    ensures ok { OnOk result (held.new ≡ with_keys table held.old keys.now) }
    ensures front { (more : Sequence AnyKey) × (held.new ≡ held.old ++ more) }
    ensures told { PrintsMove holds.old holds.new session (prints_of held.old) (prints_of held.new) }
{
    for key in keys {
        hold_one_key(held, holds, session, table, key)?;
    }
    Ok(())
}

/// The session holds this key of a table too. An `Err` adds none.
fn hold_one_key(
    held: &mut List<HeldKey>,
    holds: &mut HoldIndex,
    session: u32,
    table: u32,
    key: &Value,
) -> Result<(), Memory>
    requires { HoldsPrints holds.old session (prints_of held.old) }
    ensures ok { OnOk result (held.new ≡ with_key table held.old key.now) }
    ensures err { OnErr result (held.new ≡ held.old) }
    ensures told { PrintsMove holds.old holds.new session (prints_of held.old) (prints_of held.new) }
{
    if has_key(held, holds, session, table, key) {
        return Ok(());
    }
    held.push(HeldKey {
        table,
        key: key.copy()?,
    })?;
    holds.hold_key(session, table, key);
    Ok(())
}

/// Whether the session holds just this key of a table.
fn has_key(held: &List<HeldKey>, holds: &HoldIndex, session: u32, table: u32, key: &Value) -> bool
    requires { HoldsPrints holds.now session (prints_of held.now) }
    ensures { result ≡ list_any (is_held_key table key.now) held.now }
{
    if holds.is_kept() {
        return has_told_key(held, holds, session, table, key);
    }
    stands_held(held, table, key)
}

/// The same by what is told: where the session is not told of its print, it does not.
fn has_told_key(
    held: &List<HeldKey>,
    holds: &HoldIndex,
    session: u32,
    table: u32,
    key: &Value,
) -> bool
    requires has { HoldsPrints holds.now session (prints_of held.now) }
    requires kept { holds.now.is_kept ≡ true }
    ensures { result ≡ list_any (is_held_key table key.now) held.now }
{
    if holds.tells_key(session, table, key) {
        return stands_held(held, table, key);
    }
    false
}

fn stands_held(held: &List<HeldKey>, table: u32, key: &Value) -> bool
    ensures { result ≡ list_any (is_held_key table key.now) held.now }
{
    held.as_slice()
        .iter()
        .any(|held| held.table == table && same_key(1, &held.key, key))
}

/// A session that holds these keys holds no key any more.
fn free_keys(holds: &mut HoldIndex, keys: &[HeldKey])
    ensures { (session : ℕ) → PrintsMove holds.old holds.new session (prints_of keys.now) [] }
{
    for held in keys {
        holds.free_key(held.table, &held.key);
    }
}

/// The session, which is told of no row, holds these.
fn tell_rows(holds: &mut HoldIndex, session: u32, rows: &[u64])
    ensures { RowsMove holds.old holds.new session [] rows.now }
{
    for row in rows {
        holds.hold_row(session, *row);
    }
}

/// The session, which is told of no key, holds these.
fn tell_keys(holds: &mut HoldIndex, session: u32, keys: &[HeldKey])
    ensures { PrintsMove holds.old holds.new session [] (prints_of keys.now) }
{
    for held in keys {
        holds.hold_key(session, held.table, &held.key);
    }
}

/// A session of this transaction holds nothing any more.
pub fn free_own(holds: &mut HoldIndex, own: &Transaction)
    ensures { (session : ℕ) → HoldsMove holds.old holds.new session own.now nothing }
{
    holds.free_rows(own.rows.as_slice());
    free_keys(holds, own.keys.as_slice());
}

/// The session, which holds nothing, is of this transaction.
pub fn tell_own(holds: &mut HoldIndex, session: u32, own: &Transaction)
    ensures { HoldsMove holds.old holds.new session nothing own.now }
{
    tell_rows(holds, session, own.rows.as_slice());
    tell_keys(holds, session, own.keys.as_slice());
}
