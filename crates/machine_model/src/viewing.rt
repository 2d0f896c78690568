//! What a call can depend on, handed out as values of its own.

ghost use Rattle.std.specs.Prelude.{◌≡◌, ◌++◌, map, nat_eq, IfOk, OnOk};
ghost use Rattle.std.specs.List.{AllZip, filter, filter_map, list_any};
ghost use Rattle.std.specs.List.Sorted.{IsSorted};
ghost use Rattle.std.specs.Ordering.{nat_cmp};
ghost use Rattle.desk_values.specs.Sorting.{kind_then_value};
ghost use Rattle.sql_eval.specs.Totals.{looked_at};
ghost use Rattle.sql_tree.specs.Plain.{plan_of};
ghost use Rattle.server_words.specs.Request.{request_of, read, statement_in, table_in, table_named};
ghost use Rattle.server_words.specs.Rows.{row_numbers};
ghost use Rattle.server_words.specs.View.{is_held, key_of_table, keys_held, plain_view};
ghost use Rattle.server_words.specs.Views.{AreOnce, IsPointOf, IsViewOf, key_id, key_order};
ghost use Rattle.machine_model.specs.Footing.{rows_held};

use desk_schema::Schema;
use desk_values::{Call, Copied, Image, Images, List, Memory, Txt, Value, Values, kind_then_value};
use machine_stores::Others;
use server_words::{HeldKey, KeyId, KeyIds, Point, Points, RowIds, Savepoint, Session, View};
use sql_reader::{SqlErr, Statement, read_statement};
use std::alloc::Global;
use std::cmp::Ordering;

/// The view of a session whose call is a statement on no table.
pub fn view_without_table(alloc: Global, session: &Session) -> Result<View, Memory>
    ensures { IfOk result (λ view. IsViewOf (plain_view session.now) view) }
{
    let changes = List::from_slice(alloc, session.own.changes.as_slice())?;
    let held_rows = rows_once(alloc, session.own.rows.as_slice())?;
    let held_keys = held_once(alloc, session.own.keys.as_slice())?;
    let points = points_of(alloc, session.savepoints.as_slice())?;
    Ok(View {
        rights: session.rights,
        read_only: session.snapshot.is_some(),
        changes,
        held_rows,
        held_keys,
        points,
        rows: List::new(alloc),
        others_rows: List::new(alloc),
        others_keys: List::new(alloc),
    })
}

// The savepoints, one by one.
fn points_of(alloc: Global, savepoints: &[Savepoint]) -> Result<Points, Memory>
    ensures { IfOk result (λ points. AllZip IsPointOf savepoints.now points) }
{
    let mut points = List::new(alloc);
    for savepoint in savepoints {
        points.push(point_of(alloc, savepoint)?)?;
    }
    Ok(points)
}

fn point_of(alloc: Global, savepoint: &Savepoint) -> Result<Point, Memory>
    ensures { IfOk result (λ point. IsPointOf savepoint.now point) }
{
    let name = savepoint.name.copy()?;
    let changes = List::from_slice(alloc, savepoint.own.changes.as_slice())?;
    let held_rows = rows_once(alloc, savepoint.own.rows.as_slice())?;
    let held_keys = held_once(alloc, savepoint.own.keys.as_slice())?;
    Ok(Point {
        name,
        changes,
        held_rows,
        held_keys,
    })
}

/// The number of the table of a call, where it is a statement on one.
pub fn table_of_call(alloc: Global, schema: &Schema, call: &Call) -> Result<Option<u32>, Memory>
    ensures { IfOk result (λ table. table ≡ table_in (request_of schema.now call.now)) }
{
    match call {
        Call::Sql(text, _) => table_of_text(alloc, schema, text),
        Call::Connect(_) => Ok(None),
        Call::Disconnect => Ok(None),
    }
}

// That of a text, whatever its binds are.
fn table_of_text(alloc: Global, schema: &Schema, text: &Txt) -> Result<Option<u32>, Memory>
    ensures { IfOk result (λ table. (binds : _) → table ≡ table_in (read schema.now binds (statement_in schema.now.version text.now))) }
{
    match read_statement(alloc, text) {
        Ok(statement) => Ok(table_of_statement(schema, &statement)),
        Err(SqlErr::Syntax) => Ok(None),
        Err(SqlErr::Memory) => Err(Memory),
    }
}

fn table_of_statement(schema: &Schema, statement: &Statement) -> Option<u32>
    ensures { result ≡ table_named schema.now (plan_of statement.now) }
{
    match statement {
        Statement::Select(table, _, _, _, _) => schema.table_named(table),
        Statement::Insert(table, _, _) => schema.table_named(table),
        Statement::Update(table, _, _) => schema.table_named(table),
        Statement::Delete(table, _) => schema.table_named(table),
        Statement::Next(_) => None,
        Statement::Commit => None,
        Statement::Rollback => None,
        Statement::SetReadOnly => None,
        Statement::Savepoint(_) => None,
        Statement::RollbackTo(_) => None,
    }
}

/// Copies of the rows.
pub fn copied(alloc: Global, rows: &[&Image]) -> Result<Images, Memory>
    ensures { IfOk result (λ images. images ≡ looked_at rows.now) }
{
    let mut images = List::new(alloc);
    for image in rows {
        images.push(image.copy()?)?;
    }
    Ok(images)
}

/// The numbers of those rows that another session holds.
pub fn held_by_others(alloc: Global, others: Others<'_>, rows: &[&Image]) -> Result<RowIds, Memory>
    ensures { IfOk result
        (λ held. held ≡ row_numbers (filter (is_held (others.entry.before.now ++ others.entry.after.now)) (looked_at rows.now))) }
{
    let mut held = Vec::new(alloc);
    add_rows(others.before, &mut held)?;
    add_rows(others.after, &mut held)?;
    held.sort()?;
    numbers_among(alloc, &held, rows)
}

/// Adds the rows that these sessions hold.
pub fn add_rows(sessions: &[Session], to: &mut Vec<u64>) -> Result<(), Memory>
    ensures { OnOk result (to.new.items ≡ to.old.items ++ rows_held sessions.now) }
{
    for session in sessions {
        to.extend_from_slice(session.own.rows.as_slice())?;
    }
    Ok(())
}

// The numbers of those rows that stand among these numbers.
fn numbers_among(alloc: Global, numbers: &[u64], rows: &[&Image]) -> Result<RowIds, Memory>
    requires { IsSorted nat_cmp numbers.now }
    ensures { IfOk result (λ among. among ≡ filter (λ number. list_any (nat_eq number) numbers.now) (row_numbers (looked_at rows.now))) }
{
    let mut among = List::new(alloc);
    for image in rows {
        if stands_among(numbers, image.row) {
            among.push(image.row)?;
        }
    }
    Ok(among)
}

// Whether a number stands among numbers that ascend.
fn stands_among(numbers: &[u64], number: u64) -> bool
    requires { IsSorted nat_cmp numbers.now }
    ensures { result ≡ list_any (nat_eq number) numbers.now }
{
    numbers.binary_search(&number).is_ok()
}

/// The keys of a table that other sessions hold, each once.
pub fn keys_of_others(alloc: Global, others: Others<'_>, table: u32) -> Result<Values, Memory>
    ensures { IfOk result
        (λ keys. AreOnce kind_then_value (keys_held (others.entry.before.now ++ others.entry.after.now) table) keys) }
{
    let mut keys = Vec::new(alloc);
    add_keys(others.before, table, &mut keys)?;
    add_keys(others.after, table, &mut keys)?;
    values_once(keys)
}

// Adds the keys of a table that these sessions hold.
fn add_keys(sessions: &[Session], table: u32, to: &mut Vec<Value>) -> Result<(), Memory>
    ensures { OnOk result (to.new.items ≡ to.old.items ++ keys_held sessions.now table) }
{
    for session in sessions {
        add_keys_of(session.own.keys.as_slice(), table, to)?;
    }
    Ok(())
}

fn add_keys_of(held: &[HeldKey], table: u32, to: &mut Vec<Value>) -> Result<(), Memory>
    ensures { OnOk result (to.new.items ≡ to.old.items ++ filter_map (key_of_table table) held.now) }
{
    for one in held {
        if one.table == table {
            to.push(one.key.copy()?)?;
        }
    }
    Ok(())
}

/// The rows, each once, ascending.
pub fn rows_once(alloc: Global, rows: &[u64]) -> Result<RowIds, Memory>
    ensures { IfOk result (λ once. AreOnce nat_cmp rows.now once) }
{
    let mut sorted = Vec::from_slice(alloc, rows)?;
    sorted.sort()?;
    sorted.dedup();
    Ok(List::from_vec(sorted))
}

// The keys, each once, by table and then as rows are sorted.
fn held_once(alloc: Global, held: &[HeldKey]) -> Result<KeyIds, Memory>
    ensures { IfOk result (λ once. AreOnce key_order (map key_id held.now) once) }
{
    let mut keys = key_ids(alloc, held)?;
    keys.sort_by(|a, b| key_order(a, b))?;
    keys.dedup_by(|key, before| key_order(key, before).is_eq());
    Ok(List::from_vec(keys))
}

fn key_ids(alloc: Global, held: &[HeldKey]) -> Result<Vec<KeyId>, Memory>
    ensures { IfOk result (λ keys. keys.items ≡ map key_id held.now) }
{
    let mut keys = Vec::new(alloc);
    for one in held {
        let key = one.key.copy()?;
        keys.push(KeyId {
            table: one.table,
            key,
        })?;
    }
    Ok(keys)
}

fn key_order(a: &KeyId, b: &KeyId) -> Ordering
    ensures { result ≡ key_order a.now b.now }
{
    a.table.cmp(&b.table).then(kind_then_value(&a.key, &b.key))
}

// The values, each once, as rows are sorted.
fn values_once(values: Vec<Value>) -> Result<Values, Memory>
    ensures { IfOk result (λ once. AreOnce kind_then_value values.items once) }
{
    let mut values = values;
    values.sort_by(|a, b| kind_then_value(a, b))?;
    values.dedup_by(|value, before| kind_then_value(value, before).is_eq());
    Ok(List::from_vec(values))
}
