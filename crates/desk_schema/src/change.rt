//! A start for a replay on another target, from a file of changes.

ghost use Rattle.std.specs.Prelude.{◌≡◌, ◌++◌, ℕ, List, [], map, IfOk, OnOk};
ghost use Rattle.std.specs.Option.{option_copied};
ghost use Rattle.std.specs.List.{cons_option};
ghost use denote.Ref.{Bor};
ghost use Rattle.csv.specs.Records.{fields_of};
ghost use Rattle.desk_schema.specs.Change.{Changes, records_in};
ghost use Rattle.desk_schema.specs.Inside.Declaring.{ChangesBy};
ghost use Rattle.desk_schema.specs.declared.change.ChangeErr.TheVariants.{Memory as OutOfMemory};

use crate::draft::DraftErr;
use crate::edit::edit_of;
use crate::editing::edited;
use crate::start::Start;
use csv::{ByteRecord, ReaderBuilder};
use desk_values::{Copied, Memory};
use std::alloc::{AllocFailed, Global};
use thiserror::Error;

/// Why bytes change no start.
#[derive(Clone, Copy, Debug, PartialEq, Eq, Error)]
pub enum ChangeErr {
    /// The record is none of a change, or what comes of it breaks a rule of starts. Records count from 1.
    #[error("bad record {n}")]
    BadRow {
        /// The record's number.
        n: u64,
    },
    /// Want of memory.
    #[error("out of memory")]
    Memory,
}

impl From<Memory> for ChangeErr {
    ghost from_gives = { λ _ e. e ≡ OutOfMemory };

    fn from(_error: Memory) -> ChangeErr {
        ChangeErr::Memory
    }
}

impl<T: Drop> From<AllocFailed<T>> for ChangeErr {
    ghost from_gives = { λ _ e. e ≡ OutOfMemory };

    fn from(_error: AllocFailed<T>) -> ChangeErr {
        ChangeErr::Memory
    }
}

/// The start that the records of a file lead to, one after another.
pub(crate) fn changed_start(start: &Start, bytes: &[u8]) -> Result<Start, ChangeErr>
    ensures { Changes start.now (records_in bytes.now) result }
{
    let alloc = start.rows().allocator();
    let mut now = start.copy()?;
    let mut n: u64 = 0;
    let reader = ReaderBuilder::new()
        .has_headers(false)
        .flexible(true)
        .from_reader(alloc, bytes);
    for read in reader.into_byte_records() {
        let Ok(row) = read else {
            return Err(ChangeErr::Memory);
        };
        n += 1;
        now = changed(alloc, &now, &row, n)?;
    }
    Ok(now)
}

/// What the record of this number makes of a start.
fn changed(alloc: Global, start: &Start, row: &ByteRecord, n: u64) -> Result<Start, ChangeErr>
    ensures { ChangesBy start.now (fields_of row.now) n result }
{
    let fields = fields_in(alloc, row)?;
    let Some(edit) = edit_of(alloc, start, &fields)? else {
        return Err(ChangeErr::BadRow { n });
    };
    match edited(alloc, start, edit) {
        Ok(next) => Ok(next),
        Err(DraftErr::Rule) => Err(ChangeErr::BadRow { n }),
        Err(DraftErr::Memory) => Err(ChangeErr::Memory),
    }
}

/// The fields of a record.
fn fields_in(alloc: Global, row: &ByteRecord) -> Result<Vec<&[u8]>, Memory>
    ensures { IfOk result (λ fields. map (λ (field : Bor (List ℕ)). field.now) fields.items ≡ fields_of row.now) }
{
    let mut fields = Vec::new(alloc);
    for i in 0..row.len() {
        push_field(&mut fields, row.get(i))?;
    }
    Ok(fields)
}

/// Adds a field, if there is one.
fn push_field<'a>(fields: &mut Vec<&'a [u8]>, field: Option<&'a [u8]>) -> Result<(), Memory>
    ensures { OnOk result (map (λ (field : Bor (List ℕ)). field.now) fields.new.items
        ≡ map (λ (field : Bor (List ℕ)). field.now) fields.old.items ++ cons_option (option_copied field.entry) []) }
{
    if let Some(field) = field {
        fields.push(field)?;
    }
    Ok(())
}
