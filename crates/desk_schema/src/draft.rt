ghost use Rattle.std.specs.Prelude.{◌≡◌, IfOk, IfSome, IfNone, IsErrOf, OnOk, OnErr};
ghost use Rattle.std.specs.List.{Contains};
ghost use Rattle.desk_schema.specs.declared.line.StartLine.{StartLine};
ghost use Rattle.desk_schema.specs.declared.draft.DraftErr.TheVariants.{Memory as OutOfMemory};
ghost use Rattle.desk_schema.specs.Schema.{IsVersion, place_of};
ghost use Rattle.desk_schema.specs.Line.{name_of, with_name};
ghost use Rattle.desk_schema.specs.State.{added, nothing};
ghost use Rattle.desk_schema.specs.Rules.{MayFollow};
ghost use Rattle.desk_schema.specs.Draft.{IsReached, finished, Judges, JudgesUnlessMemory, with_version};

use crate::additions::{last_columns, push_column, push_row, push_sequence};
use crate::keys::{KeySet, row_key};
use crate::lookup::place_in;
use crate::rules::{
    Last, fits_row, may_add_column, may_add_sequence, may_add_service, may_add_table, may_finish,
};
use crate::schema::{Column, FIRST_VERSION, Kind, Rights, Schema, Service, Table, is_version};
use crate::start::Start;
use desk_values::{Copied, Image, List, Memory, ReadErr, Txt, Values};
use std::alloc::{AllocFailed, Global};
use std::marker::Model;
use thiserror::Error;

/// Why a line was not added to a [`Draft`].
#[derive(Clone, Copy, Debug, PartialEq, Eq, Error)]
pub enum DraftErr {
    /// It would break a rule of the lines of a start file. Each call of [`Draft`] says which.
    #[error("a line that breaks a rule of start files")]
    Rule,
    /// Want of memory.
    #[error("out of memory")]
    Memory,
}

impl From<Memory> for DraftErr {
    ghost from_gives = { λ _ e. e ≡ OutOfMemory };

    fn from(_error: Memory) -> DraftErr {
        DraftErr::Memory
    }
}

impl<T: Drop> From<AllocFailed<T>> for DraftErr {
    ghost from_gives = { λ _ e. e ≡ OutOfMemory };

    fn from(_error: AllocFailed<T>) -> DraftErr {
        DraftErr::Memory
    }
}

impl From<DraftErr> for ReadErr {
    ghost use Rattle.desk_schema.specs.Draft.{line_err};

    ghost from_gives = { λ r e. e ≡ line_err r };

    fn from(error: DraftErr) -> ReadErr {
        match error {
            DraftErr::Rule => ReadErr::Bad,
            DraftErr::Memory => ReadErr::Memory,
        }
    }
}

/// The highest level of the SQL rules. The lowest is 1.
const LEVEL_LIMIT: u32 = 2;

/// A start whose lines come one after the other, in the order of a start file: the level, sequences, services, tables
/// each with its columns, rows, and the number of the next row. Contracts see the state that the lines so far lead to. A
/// call answers `Rule` exactly where its line breaks a rule, and `Memory` where memory is wanting.
#[derive(Drop)]
pub struct Draft {
    last: Last,
    version: u32,
    level: u32,
    sequences: Vec<Txt>,
    next_values: Vec<u64>,
    services: List<Service>,
    tables: Vec<Table>,
    rows: Vec<Image>,
    keys: KeySet,
}

impl Model for Draft {
    ghost use Rattle.desk_schema.specs.State.{State};
    ghost use Rattle.desk_schema.specs.Draft.{drafted};
    ghost use Rattle.desk_schema.specs.Inside.Draft.{IsDraft};

    ghost Value = { State };

    ghost view = { λ a. drafted a.last
        (record {
          version = a.version;
          level = a.level;
          sequences = a.sequences.items;
          services = a.services;
          tables = a.tables.items;
        }) a.next_values.items a.rows.items };

    ghost invariant = { λ a. IsDraft
        (drafted a.last
        (record {
          version = a.version;
          level = a.level;
          sequences = a.sequences.items;
          services = a.services;
          tables = a.tables.items;
        }) a.next_values.items a.rows.items) a.keys };
}

impl Draft {
    /// A draft with its first two lines: version 1 of the format, and the level of the SQL rules. `Rule` where the level
    /// is not 1 or 2. It takes no memory.
    pub fn new(alloc: Global, level: u32) -> Result<Draft, DraftErr>
        ensures ok { IfOk result (λ draft. draft ≡ added (added nothing (StartLine.Head 1)) (StartLine.Level level)) }
        ensures rule { Judges result (MayFollow (added nothing (StartLine.Head 1)) (StartLine.Level level)) }
        ensures total { ¬ IsErrOf result OutOfMemory }
    {
        if !(1..=LEVEL_LIMIT).contains(&level) {
            return Err(DraftErr::Rule);
        }
        Ok(Draft {
            last: Last::Level,
            version: FIRST_VERSION,
            level,
            sequences: Vec::new(alloc),
            next_values: Vec::new(alloc),
            services: List::new(alloc),
            tables: Vec::new(alloc),
            rows: Vec::new(alloc),
            keys: KeySet::new(alloc),
        })
    }

    /// Sets the version of the format. `Rule` where it is not 1 or 2. It takes no memory. An `Err` changes nothing.
    pub fn set_version(&mut self, version: u32) -> Result<(), DraftErr>
        ensures ok { OnOk result (self.new ≡ with_version version self.old) }
        ensures rule { Judges result (IsVersion version) }
        ensures total { ¬ IsErrOf result OutOfMemory }
        ensures err { OnErr result (self.new ≡ self.old) }
    {
        if !is_version(version) {
            return Err(DraftErr::Rule);
        }
        self.version = version;
        Ok(())
    }

    /// Adds a sequence with its next value. `Rule` where a service or a table is there already; where there are 16
    /// sequences; where `name` is no name (as `is_name` tells) or that of another one; or where `next` is not from 1 to
    /// 549,755,813,888, which is 2^39. An `Err` changes nothing.
    pub fn add_seq(&mut self, name: &Txt, next: u64) -> Result<(), DraftErr>
        ensures ok { OnOk result (self.new ≡ added self.old (StartLine.Seq name.now next)) }
        ensures rule { Judges result (MayFollow self.old (StartLine.Seq name.now next)) }
        ensures err { OnErr result (self.new ≡ self.old) }
    {
        if !may_add_sequence(self.last, self.sequences.as_slice(), name, next) {
            return Err(DraftErr::Rule);
        }
        let name = name.copy()?;
        push_sequence(&mut self.sequences, name, &mut self.next_values, next)?;
        self.last = Last::Sequence;
        Ok(())
    }

    /// Adds a service. `Rule` where a table is there already; where there are 16 services; or where `name` is no name or
    /// that of another one. An `Err` changes nothing.
    pub fn add_service(&mut self, name: &Txt, rights: Rights) -> Result<(), DraftErr>
        ensures ok { OnOk result (self.new ≡ added self.old (StartLine.Service name.now rights)) }
        ensures rule { Judges result (MayFollow self.old (StartLine.Service name.now rights)) }
        ensures err { OnErr result (self.new ≡ self.old) }
    {
        if !may_add_service(self.last, self.services.as_slice(), name) {
            return Err(DraftErr::Rule);
        }
        let name = name.copy()?;
        self.services.push(Service { name, rights })?;
        self.last = Last::Service;
        Ok(())
    }

    /// Adds a table. Its columns come next. `Rule` where a row is there already; where the table before it has no column;
    /// where there are 32 tables; or where `name` is no name or that of another one. An `Err` changes nothing.
    pub fn add_table(&mut self, name: &Txt) -> Result<(), DraftErr>
        ensures ok { OnOk result (self.new ≡ added self.old (StartLine.Table name.now)) }
        ensures rule { Judges result (MayFollow self.old (StartLine.Table name.now)) }
        ensures err { OnErr result (self.new ≡ self.old) }
    {
        if !may_add_table(self.last, self.tables.as_slice(), name) {
            return Err(DraftErr::Rule);
        }
        let name = name.copy()?;
        let columns = List::new(*self.tables.allocator());
        self.tables.push(Table { name, columns })?;
        self.last = Last::Table;
        Ok(())
    }

    /// Adds a column to the last table. `Rule` where there is no table, or a row already; where the table has 16 columns;
    /// where `name` is no name or that of another column of the table; where `kind` has limits that it does not allow, or
    /// is that of no sequence; or where the first column of a table, its key, may be null. An `Err` changes nothing.
    pub fn add_col(&mut self, name: &Txt, kind: Kind, not_null: bool) -> Result<(), DraftErr>
        ensures ok { OnOk result
            (self.new ≡ added self.old (StartLine.Column name.now (with_name self.old.start.schema.sequences kind) not_null)) }
        ensures rule { Judges result
            (MayFollow self.old (StartLine.Column name.now (with_name self.old.start.schema.sequences kind) not_null)) }
        ensures err { OnErr result (self.new ≡ self.old) }
    {
        let sequences = self.sequences.as_slice();
        let columns = last_columns(self.tables.as_slice());
        if !may_add_column(self.last, sequences, columns, name, kind, not_null) {
            return Err(DraftErr::Rule);
        }
        let name = name.copy()?;
        push_column(
            &mut self.tables,
            Column {
                name,
                kind,
                not_null,
            },
        )?;
        self.last = Last::Column;
        Ok(())
    }

    /// Adds a row of a table. `Rule` where there is no table, or the last one has no column; where there are 100,000 rows;
    /// where `row` is 0, or not above the row before it; where no table has this number; where there is not one value for
    /// each of its columns, null only where it may be, or else of the column's kind, and below the next value where it is
    /// drawn; or where its first value, the key, is at the level that of an earlier row of the table. Keys take memory, so
    /// `Memory` may come where the key is taken. An `Err` changes nothing.
    pub fn add_row(&mut self, row: u64, table: u32, values: Values) -> Result<(), DraftErr>
        ensures ok { OnOk result (self.new ≡ added self.old (StartLine.Row row table values)) }
        ensures rule { JudgesUnlessMemory result (MayFollow self.old (StartLine.Row row table values)) }
        ensures err { OnErr result (self.new ≡ self.old) }
    {
        if !fits_row(
            self.last,
            self.tables.as_slice(),
            self.next_values.as_slice(),
            self.rows.as_slice(),
            row,
            table,
            values.as_slice(),
        ) {
            return Err(DraftErr::Rule);
        }
        let key = row_key(*self.rows.allocator(), self.level, table, values.as_slice())?;
        let image = Image {
            row,
            table,
            left: Some(values),
        };
        if !push_row(&mut self.rows, image, &mut self.keys, key)? {
            return Err(DraftErr::Rule);
        }
        self.last = Last::Row;
        Ok(())
    }

    /// The number of the sequence of just this name, `None` where no line so far declares it. It takes no memory.
    pub fn sequence_named(&self, name: &Txt) -> Option<u32>
        ensures value { result ≡ place_of self.now.start.schema.sequences name.now }
        ensures some { IfSome result (λ number. name_of self.now.start.schema.sequences number ≡ name.now) }
        ensures none { IfNone result (¬ Contains self.now.start.schema.sequences name.now) }
    {
        place_in(self.sequences.as_slice(), name.as_str().as_bytes())
    }

    /// The start of the lines so far and of the number of the next row. `Rule` where the last table has no column, or
    /// where `next_row` is not above every row and from 1 to 549,755,813,888. It takes no memory. An `Err` drops the draft.
    pub fn finish(self, next_row: u64) -> Result<Start, DraftErr>
        ensures ok { IfOk result (λ start. finished start ≡ added self (StartLine.NextRow next_row)) }
        ensures rule { Judges result (MayFollow self (StartLine.NextRow next_row)) }
        ensures reached { IsReached self }
    {
        if !may_finish(self.last, self.rows.as_slice(), next_row) {
            return Err(DraftErr::Rule);
        }
        let schema = Schema::from_parts(
            self.version,
            self.level,
            List::from_vec(self.sequences),
            self.services,
            List::from_vec(self.tables),
        );
        Ok(Start::from_parts(
            schema,
            List::from_vec(self.rows),
            next_row,
            self.next_values,
        ))
    }
}
