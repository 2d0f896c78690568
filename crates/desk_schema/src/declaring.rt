//! Parts of a start, declared line by line again.

ghost use Rattle.std.specs.Prelude.{◌≡◌, [], ◌∷◌, length, map, IfOk, OnOk};
ghost use Rattle.std.specs.List.{flat_map};
ghost use Rattle.desk_schema.specs.declared.line.StartLine.{StartLine};
ghost use Rattle.desk_schema.specs.Draft.{JudgesUnlessMemory};
ghost use Rattle.desk_schema.specs.File.{IsStart};
ghost use Rattle.desk_schema.specs.State.{added, state_of};
ghost use Rattle.desk_schema.specs.Rules.{AreLines, MayFollow};
ghost use Rattle.desk_schema.specs.Start.{column_line, row_line, sequence_lines, service_line, table_lines};
ghost use Rattle.desk_schema.specs.Inside.Declaring.{Declares, IsSayable, start_of};

use crate::draft::{Draft, DraftErr};
use crate::schema::{Column, Service, Table};
use crate::start::Start;
use desk_values::{Copied, Image, List, Txt};
use std::alloc::Global;

/// The parts of a start. They may break a rule of its lines.
#[derive(Clone, Copy)]
pub(crate) struct Parts<'a> {
    pub(crate) version: u32,
    pub(crate) level: u32,
    pub(crate) sequences: &'a [Txt],
    pub(crate) services: &'a [Service],
    pub(crate) tables: &'a [Table],
    pub(crate) rows: &'a [Image],
    pub(crate) next_row: u64,
    pub(crate) next_values: &'a [u64],
}

impl<'a> Parts<'a> {
    /// The parts of a start.
    pub(crate) fn of(start: &'a Start) -> Parts<'a>
        ensures value { start_of result ≡ start.now }
        ensures valid { IsStart start.now }
    {
        let schema = start.schema();
        Parts {
            version: schema.version(),
            level: schema.level(),
            sequences: schema.sequences(),
            services: schema.services(),
            tables: schema.tables(),
            rows: start.rows().as_slice(),
            next_row: start.next_row(),
            next_values: start.next_values(),
        }
    }
}

/// The start of these parts. `Rule` where a line of it would break a rule.
pub(crate) fn declared(alloc: Global, parts: Parts<'_>) -> Result<Start, DraftErr>
    requires { IsSayable (start_of parts) }
    ensures start { IfOk result (λ start. start ≡ start_of parts.entry) }
    ensures rule { JudgesUnlessMemory result (IsStart (start_of parts.entry)) }
{
    let mut draft = begun(alloc, parts.version, parts.level)?;
    declare_sequences(&mut draft, parts.sequences, parts.next_values)?;
    declare_services(&mut draft, parts.services)?;
    declare_tables(&mut draft, parts.tables)?;
    declare_rows(alloc, &mut draft, parts.rows)?;
    draft.finish(parts.next_row)
}

/// A draft with the lines of the version and of the level.
fn begun(alloc: Global, version: u32, level: u32) -> Result<Draft, DraftErr>
    ensures ok { IfOk result (λ draft. draft ≡ state_of (StartLine.Head version ∷ StartLine.Level level ∷ [])) }
    ensures rule { JudgesUnlessMemory result (AreLines (StartLine.Head version ∷ StartLine.Level level ∷ [])) }
{
    let mut draft = Draft::new(alloc, level)?;
    draft.set_version(version)?;
    Ok(draft)
}

fn declare_sequences(draft: &mut Draft, names: &[Txt], next_values: &[u64]) -> Result<(), DraftErr>
    requires { length next_values.now ≡ length names.now }
    ensures { Declares result draft.old (sequence_lines names.now next_values.now) draft.new }
{
    for (i, name) in names.iter().enumerate() {
        draft.add_seq(name, next_values[i])?;
    }
    Ok(())
}

fn declare_services(draft: &mut Draft, services: &[Service]) -> Result<(), DraftErr>
    ensures { Declares result draft.old (map service_line services.now) draft.new }
{
    for service in services {
        draft.add_service(&service.name, service.rights)?;
    }
    Ok(())
}

fn declare_tables(draft: &mut Draft, tables: &[Table]) -> Result<(), DraftErr>
    ensures { Declares result draft.old (flat_map (table_lines draft.old.start.schema.sequences) tables.now) draft.new }
{
    for table in tables {
        declare_table(draft, table)?;
    }
    Ok(())
}

fn declare_table(draft: &mut Draft, table: &Table) -> Result<(), DraftErr>
    ensures { Declares result draft.old (table_lines draft.old.start.schema.sequences table.now) draft.new }
{
    draft.add_table(&table.name)?;
    declare_columns(draft, table.columns.as_slice())
}

fn declare_columns(draft: &mut Draft, columns: &[Column]) -> Result<(), DraftErr>
    ensures { Declares result draft.old (map (column_line draft.old.start.schema.sequences) columns.now) draft.new }
{
    for column in columns {
        draft.add_col(&column.name, column.kind, column.not_null)?;
    }
    Ok(())
}

fn declare_rows(alloc: Global, draft: &mut Draft, rows: &[Image]) -> Result<(), DraftErr>
    ensures { Declares result draft.old (map row_line rows.now) draft.new }
{
    for row in rows {
        declare_row(alloc, draft, row)?;
    }
    Ok(())
}

fn declare_row(alloc: Global, draft: &mut Draft, row: &Image) -> Result<(), DraftErr>
    ensures ok { OnOk result (draft.new ≡ added draft.old (row_line row.now)) }
    ensures rule { JudgesUnlessMemory result (MayFollow draft.old (row_line row.now)) }
{
    let values = match &row.left {
        Some(values) => values.copy()?,
        None => List::new(alloc),
    };
    draft.add_row(row.row, row.table, values)
}
