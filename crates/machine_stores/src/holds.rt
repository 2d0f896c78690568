//! The rows and keys that other sessions hold.

ghost use Rattle.std.specs.Prelude.{◌≡◌, ◌<◌, ◌≤◌, ◌+◌, ◌++◌, ◌||◌, nat_eq, true, length, take, drop};
ghost use Rattle.std.specs.List.{list_any};
ghost use Rattle.sql_eval.specs.Totals.{looked_at};
ghost use Rattle.server_words.specs.View.{holds_row, is_held, others};
ghost use Rattle.machine_stores.specs.Holds.{holds_key};
ghost use Rattle.machine_stores.specs.Holds.{AreHeld, IsBeside};
ghost use Rattle.machine_stores.specs.Inside.Holds.{is_within};

use desk_values::{Image, Value, same_key};
use hold_index::HoldIndex;
use server_words::Session;

/// The sessions beside one: those before it and those after it.
#[derive(Clone, Copy)]
pub struct Others<'a> {
    /// Those of lower numbers.
    pub before: &'a [Session],
    /// Those of higher numbers.
    pub after: &'a [Session],
    /// What they and the one hold.
    pub holds: &'a HoldIndex,
}

/// The sessions beside the one of this number, and what all of them hold.
pub fn beside<'a>(sessions: &'a [Session], session: usize, holds: &'a HoldIndex) -> Others<'a>
    requires within { session < length sessions.now }
    requires held { AreHeld holds.now sessions.now }
    ensures others { result.before.now ++ result.after.now ≡ others sessions.now session }
    ensures beside { IsBeside result }
{
    Others {
        before: first_of(sessions, session),
        after: rest_of(sessions, session + 1),
        holds,
    }
}

fn first_of(sessions: &[Session], count: usize) -> &[Session]
    requires { count ≤ length sessions.now }
    ensures { result.now ≡ take count sessions.now }
{
    &sessions[..count]
}

fn rest_of(sessions: &[Session], count: usize) -> &[Session]
    requires { count ≤ length sessions.now }
    ensures { result.now ≡ drop count sessions.now }
{
    &sessions[count..]
}

/// Whether the row stands among these.
pub fn stands_among(row: u64, rows: &[u64]) -> bool
    ensures { result ≡ list_any (nat_eq row) rows.now }
{
    rows.contains(&row)
}

fn session_holds_row(session: &Session, row: u64) -> bool
    ensures { result ≡ holds_row row session.now }
{
    stands_among(row, session.own.rows.as_slice())
}

fn some_holds_row(sessions: &[Session], row: u64) -> bool
    ensures { result ≡ list_any (holds_row row) sessions.now }
{
    sessions
        .iter()
        .any(|session| session_holds_row(session, row))
}

fn hold_row(others: Others<'_>, row: u64) -> bool
    requires { IsBeside others }
    ensures { result ≡ list_any (holds_row row) (others.entry.before.now ++ others.entry.after.now) }
{
    if others.holds.is_kept() {
        return is_told_of_row(others, row);
    }
    some_holds_row(others.before, row) || some_holds_row(others.after, row)
}

/// What is told of the row.
fn is_told_of_row(others: Others<'_>, row: u64) -> bool
    requires beside { IsBeside others }
    requires kept { others.holds.now.is_kept ≡ true }
    ensures { result ≡ list_any (holds_row row) (others.entry.before.now ++ others.entry.after.now) }
{
    is_anothers(others, others.holds.holder_of_row(row))
}

/// Whether one of them is the holder.
fn is_anothers(others: Others<'_>, holder: Option<u32>) -> bool
    ensures { result
        ≡ (is_within 0 (length others.entry.before.now) holder
        || is_within (length others.entry.before.now + 1) (length others.entry.after.now) holder) }
{
    let first = others.before.len();
    is_within(0, first, holder) || is_within(first + 1, others.after.len(), holder)
}

/// Whether it is one of so many sessions, from the first on.
fn is_within(first: usize, count: usize, holder: Option<u32>) -> bool
    ensures { result ≡ is_within first count holder }
{
    match holder {
        Some(session) => first <= session as usize && session as usize - first < count,
        None => false,
    }
}

/// Whether one of them holds one of these rows.
pub fn hold_some_row(others: Others<'_>, rows: &[&Image]) -> bool
    requires { IsBeside others }
    ensures { result ≡ list_any (is_held (others.entry.before.now ++ others.entry.after.now)) (looked_at rows.now) }
{
    for image in rows {
        if hold_row(others, image.row) {
            return true;
        }
    }
    false
}

fn session_holds_key(level: u32, session: &Session, table: u32, key: &Value) -> bool
    ensures { result ≡ holds_key level table key.now session.now }
{
    session.own.keys.as_slice().iter().any(|held| held.table == table
        && same_key(level, key, &held.key))
}

fn some_holds_key(level: u32, sessions: &[Session], table: u32, key: &Value) -> bool
    ensures { result ≡ list_any (holds_key level table key.now) sessions.now }
{
    sessions
        .iter()
        .any(|session| session_holds_key(level, session, table, key))
}

/// Whether one of them holds this key of a table.
pub fn hold_key(level: u32, others: Others<'_>, table: u32, key: &Value) -> bool
    requires { IsBeside others }
    ensures { result ≡ list_any (holds_key level table key.now) (others.entry.before.now ++ others.entry.after.now) }
{
    if others.holds.is_kept() {
        return is_told_of_key(level, others, table, key);
    }
    look_for_key(level, others, table, key)
}

/// What is told of the key: where none of them is told of its print, none holds it.
fn is_told_of_key(level: u32, others: Others<'_>, table: u32, key: &Value) -> bool
    requires beside { IsBeside others }
    requires kept { others.holds.now.is_kept ≡ true }
    ensures { result ≡ list_any (holds_key level table key.now) (others.entry.before.now ++ others.entry.after.now) }
{
    if is_anothers(others, others.holds.holder_of_key(table, key)) {
        return look_for_key(level, others, table, key);
    }
    false
}

/// Looks through what they hold.
fn look_for_key(level: u32, others: Others<'_>, table: u32, key: &Value) -> bool
    ensures { result ≡ list_any (holds_key level table key.now) (others.entry.before.now ++ others.entry.after.now) }
{
    some_holds_key(level, others.before, table, key)
        || some_holds_key(level, others.after, table, key)
}
