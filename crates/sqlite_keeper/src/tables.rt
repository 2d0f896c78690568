//! The tables of runs and of accepted divergences.

use desk_values::{Bytes, List, Txt, TxtErr};
use run_register::{Accept, AcceptList, Kept, KeptList};
use sqlite::{Alter, Connection, Error, ErrorCode, Row, params};
use std::alloc::Global;

/// The two tables. `STRICT` keeps other kinds of values out.
const TABLES: &str =
    "CREATE TABLE IF NOT EXISTS run (name TEXT NOT NULL PRIMARY KEY, report BLOB NOT NULL) STRICT; \
    CREATE TABLE IF NOT EXISTS accepted (name TEXT NOT NULL REFERENCES run (name), stamp INTEGER NOT NULL, class INTEGER NOT NULL, \
    PRIMARY KEY (name, stamp, class)) STRICT";

const NO_MEMORY: Error = Error::SqliteFailure(ErrorCode::OutOfMemory);

const NOT_NOW: Error = Error::SqliteFailure(ErrorCode::TransactionState);

/// Makes the tables that are not there yet.
fn set_up<S: Alter>(connection: &mut Connection<S>) -> Result<(), Error> {
    connection.execute_batch(TABLES)
}

/// The report of a run.
pub(crate) fn find<S: Alter>(
    connection: &mut Connection<S>,
    name: &str,
) -> Result<Option<Bytes>, Error> {
    set_up(connection)?;
    match connection.query_row("SELECT report FROM run WHERE name = ?1", params![name]) {
        Ok(row) => Ok(Some(Bytes::from_vec(row.get(0)?))),
        Err(Error::QueryReturnedNoRows) => Ok(None),
        Err(error) => Err(error),
    }
}

/// Keeps a report under a name that is new. Answers what was kept before.
pub(crate) fn keep<S: Alter>(
    connection: &mut Connection<S>,
    name: &str,
    report: &[u8],
) -> Result<Option<Bytes>, Error> {
    set_up(connection)?;
    if !connection.is_autocommit() {
        return Err(NOT_NOW);
    }
    let mut transaction = connection.transaction();
    let added = transaction.execute(
        "INSERT INTO run (name, report) VALUES (?1, ?2) ON CONFLICT (name) DO NOTHING",
        params![name, report],
    )?;
    let row = transaction.query_row("SELECT report FROM run WHERE name = ?1", params![name])?;
    let kept: Vec<u8> = row.get(0)?;
    transaction.commit()?;
    if added == 1 {
        Ok(None)
    } else {
        Ok(Some(Bytes::from_vec(kept)))
    }
}

/// All runs, ascending by the bytes of their names.
pub(crate) fn all<S: Alter>(
    alloc: Global,
    connection: &mut Connection<S>,
) -> Result<KeptList, Error> {
    set_up(connection)?;
    let rows = connection.query_all("SELECT name, report FROM run ORDER BY name", &[])?;
    let mut runs = List::new(alloc);
    for row in rows.as_slice() {
        let run = run_in(alloc, row)?;
        runs.push(run).map_err(|_| NO_MEMORY)?;
    }
    Ok(runs)
}

// A name and its report. A name that is too long for one is of none of ours.
fn run_in(alloc: Global, row: &Row) -> Result<Kept, Error> {
    let name: String = row.get(0)?;
    let name = match Txt::from_bytes(alloc, name.as_bytes()) {
        Ok(name) => name,
        Err(TxtErr::Memory) => return Err(NO_MEMORY),
        Err(_) => return Err(Error::InvalidQuery),
    };
    Ok(Kept {
        name,
        report: Bytes::from_vec(row.get(1)?),
    })
}

/// Accepts a divergence of a run.
pub(crate) fn accept<S: Alter>(
    connection: &mut Connection<S>,
    name: &str,
    stamp: u32,
    class: u32,
) -> Result<(), Error> {
    set_up(connection)?;
    connection.execute(
        "INSERT INTO accepted (name, stamp, class) VALUES (?1, ?2, ?3) ON CONFLICT DO NOTHING",
        params![name, stamp, class],
    )?;
    Ok(())
}

/// What was accepted of a run, by stamp, then class.
pub(crate) fn accepted<S: Alter>(
    alloc: Global,
    connection: &mut Connection<S>,
    name: &str,
) -> Result<AcceptList, Error> {
    set_up(connection)?;
    let rows = connection.query_all(
        "SELECT stamp, class FROM accepted WHERE name = ?1 ORDER BY stamp, class",
        params![name],
    )?;
    let mut list = List::new(alloc);
    for row in rows.as_slice() {
        let accept = Accept {
            stamp: row.get(0)?,
            class: row.get(1)?,
        };
        list.push(accept).map_err(|_| NO_MEMORY)?;
    }
    Ok(list)
}
