ghost use Rattle.std.specs.Prelude.{◌≡◌, ◌↔◌, ◌≤◌, length, IfOk, IsNone, IsTrue, slice_get};
ghost use Rattle.std.specs.List.{Contains};
ghost use Rattle.std.specs.Option.{option_map};
ghost use Rattle.desk_schema.specs.Schema.{columns_of, column_names, IsNoName, IsSchema, IsVersion, place_ignoring_case, place_of, rights_of, service_names, shape_of, table_names};

use crate::lookup::{Named, place_ignoring_case_in, place_in};
use desk_values::{Copied, List, Memory, Same, Txt, Word};
use std::marker::Model;

/// The versions of the files.
pub(crate) const FIRST_VERSION: u32 = 1;

const LAST_VERSION: u32 = 2;

/// Whether the files have such a version: 1 or 2.
pub fn is_version(version: u32) -> bool
    ensures { IsTrue result ↔ IsVersion version }
{
    FIRST_VERSION <= version && version <= LAST_VERSION
}

/// What a column holds where it is not null.
#[derive(Clone, Copy, Debug, PartialEq, Eq)]
pub enum Kind {
    /// Whole numbers from the first to the second, both included. The first is at most the second.
    Int(i64, i64),
    /// Texts of at most so many bytes of UTF-8, whatever number of characters that is. It is 1 to 1,000.
    Text(u32),
    /// Values drawn from the sequence of this number. Sequences are numbered from 0 as they are declared.
    Seq(u32),
}

/// What the sessions of a service may do.
#[derive(Clone, Copy, Debug, PartialEq, Eq)]
pub enum Rights {
    /// Every call.
    ReadWrite,
    /// Reading alone: no INSERT, UPDATE, DELETE, FOR UPDATE or NEXTVAL.
    ReadOnly,
}

impl Word for Rights {
    ghost use Rattle.desk_schema.specs.Schema.{rights_word, all_rights, rights_have_own_words};

    ghost word_of = { rights_word };

    ghost members_of = { all_rights };

    ghost own_words = { rights_have_own_words };

    fn members() -> &'static [Rights] {
        &[Rights::ReadWrite, Rights::ReadOnly]
    }

    // The word of the rights in a service's line.
    fn word(self) -> &'static str {
        match self {
            Rights::ReadWrite => "rw",
            Rights::ReadOnly => "ro",
        }
    }
}

/// A service that clients connect to.
#[derive(Drop)]
pub struct Service {
    /// Its name.
    pub name: Txt,
    /// What its sessions may do.
    pub rights: Rights,
}

/// A column of a table.
#[derive(Drop)]
pub struct Column {
    /// Its name, in lower case.
    pub name: Txt,
    /// What it holds.
    pub kind: Kind,
    /// Whether a value has to be there.
    pub not_null: bool,
}

/// A table. Its rows are told apart by the first column.
#[derive(Drop)]
pub struct Table {
    /// Its name, in lower case.
    pub name: Txt,
    /// Its columns in order.
    pub columns: List<Column>,
}

impl Named for Service {
    ghost name_in = { λ service. service.name };

    fn name(&self) -> &Txt {
        &self.name
    }
}

impl Named for Column {
    ghost name_in = { λ column. column.name };

    fn name(&self) -> &Txt {
        &self.name
    }
}

impl Named for Table {
    ghost name_in = { λ table. table.name };

    fn name(&self) -> &Txt {
        &self.name
    }
}

/// The version of the files, the level of the SQL rules, the sequences' names, the services and the tables.
#[derive(Drop)]
pub struct Schema {
    version: u32,
    level: u32,
    sequences: List<Txt>,
    services: List<Service>,
    tables: List<Table>,
}

impl Model for Schema {
    ghost use Rattle.desk_schema.specs.Schema.{SchemaView, IsSchema};

    ghost Value = { SchemaView };

    ghost view = { λ a.
        record {
          version = a.version;
          level = a.level;
          sequences = a.sequences;
          services = a.services;
          tables = a.tables;
        } };

    ghost invariant = { λ a. IsSchema
        (record {
          version = a.version;
          level = a.level;
          sequences = a.sequences;
          services = a.services;
          tables = a.tables;
        }) };
}

impl Copied for Service {
    fn copy(&self) -> Result<Service, Memory> {
        Ok(Service {
            name: self.name.copy()?,
            rights: self.rights,
        })
    }
}

impl Copied for Column {
    fn copy(&self) -> Result<Column, Memory> {
        Ok(Column {
            name: self.name.copy()?,
            kind: self.kind,
            not_null: self.not_null,
        })
    }
}

impl Copied for Table {
    fn copy(&self) -> Result<Table, Memory> {
        Ok(Table {
            name: self.name.copy()?,
            columns: self.columns.copy()?,
        })
    }
}

impl Copied for Schema {
    fn copy(&self) -> Result<Schema, Memory> {
        Ok(Schema {
            version: self.version,
            level: self.level,
            sequences: self.sequences.copy()?,
            services: self.services.copy()?,
            tables: self.tables.copy()?,
        })
    }
}

impl Same for Service {
    fn same(&self, other: &Service) -> bool {
        self.name.same(&other.name) && self.rights == other.rights
    }
}

impl Same for Column {
    fn same(&self, other: &Column) -> bool {
        self.name.same(&other.name) && self.kind == other.kind && self.not_null == other.not_null
    }
}

impl Same for Table {
    fn same(&self, other: &Table) -> bool {
        self.name.same(&other.name) && self.columns.same(&other.columns)
    }
}

impl Same for Schema {
    fn same(&self, other: &Schema) -> bool {
        self.version == other.version
            && self.level == other.level
            && self.sequences.same(&other.sequences)
            && self.services.same(&other.services)
            && self.tables.same(&other.tables)
    }
}

/// The columns of a table, none where there is no such table.
pub(crate) fn columns_of(tables: &[Table], table: u32) -> &[Column]
    ensures { result.now ≡ columns_of tables.now table }
{
    match tables.get(table as usize) {
        Some(table) => table.columns.as_slice(),
        None => &[],
    }
}

impl Schema {
    /// The schema of these parts.
    pub(crate) fn from_parts(
        version: u32,
        level: u32,
        sequences: List<Txt>,
        services: List<Service>,
        tables: List<Table>,
    ) -> Schema
        requires { IsSchema
            (record {
              version = version;
              level = level;
              sequences = sequences;
              services = services;
              tables = tables;
            }) }
        ensures { result
            ≡ record {
              version = version;
              level = level;
              sequences = sequences;
              services = services;
              tables = tables;
            } }
    {
        Schema {
            version,
            level,
            sequences,
            services,
            tables,
        }
    }

    /// The version of the files: 1, or 2, from which on the server has savepoints.
    pub fn version(&self) -> u32
        ensures value { result ≡ self.now.version }
        ensures valid { IsVersion result }
    {
        self.version
    }

    /// The level of the SQL rules.
    pub fn level(&self) -> u32
        ensures value { result ≡ self.now.level }
        ensures valid { IsSchema self.now }
    {
        self.level
    }

    /// The sequences' names, by number.
    pub fn sequences(&self) -> &[Txt]
        ensures { result.now ≡ self.now.sequences }
    {
        self.sequences.as_slice()
    }

    /// The services in the order of their declaration.
    pub fn services(&self) -> &[Service]
        ensures { result.now ≡ self.now.services }
    {
        self.services.as_slice()
    }

    /// The tables, by number.
    pub fn tables(&self) -> &[Table]
        ensures { result.now ≡ self.now.tables }
    {
        self.tables.as_slice()
    }

    /// The columns of a table, none where there is no such table.
    pub fn columns(&self, table: u32) -> &[Column]
        ensures value { result.now ≡ columns_of self.now.tables table }
        ensures limit { length result.now ≤ 16 }
    {
        columns_of(self.tables.as_slice(), table)
    }

    /// The number of the table of this name, the case of ASCII letters ignored.
    pub fn table_named(&self, name: &Txt) -> Option<u32>
        ensures value { result ≡ place_ignoring_case (table_names self.now.tables) name.now }
        ensures none { IsNone result ↔ IsNoName (table_names self.now.tables) name.now }
    {
        place_ignoring_case_in(self.tables.as_slice(), name)
    }

    /// The number of the column of this name in a table, the case of ASCII letters ignored.
    pub fn column_named(&self, table: u32, name: &Txt) -> Option<u32>
        ensures value { result ≡ place_ignoring_case (column_names (columns_of self.now.tables table)) name.now }
        ensures none { IsNone result ↔ IsNoName (column_names (columns_of self.now.tables table)) name.now }
    {
        place_ignoring_case_in(self.columns(table), name)
    }

    /// The number of the sequence of this name, the case of ASCII letters ignored.
    pub fn seq_named(&self, name: &Txt) -> Option<u32>
        ensures value { result ≡ place_ignoring_case self.now.sequences name.now }
        ensures none { IsNone result ↔ IsNoName self.now.sequences name.now }
    {
        place_ignoring_case_in(self.sequences.as_slice(), name)
    }

    /// The number of the table of just this name.
    pub(crate) fn table_place(&self, name: &[u8]) -> Option<u32>
        ensures { result ≡ place_of (table_names self.now.tables) name.now }
    {
        place_in(self.tables.as_slice(), name)
    }

    /// The number of the column of just this name in a table.
    pub(crate) fn column_place(&self, table: u32, name: &[u8]) -> Option<u32>
        ensures { result ≡ place_of (column_names (columns_of self.now.tables table)) name.now }
    {
        place_in(self.columns(table), name)
    }

    /// The number of the sequence of just this name.
    pub(crate) fn sequence_place(&self, name: &[u8]) -> Option<u32>
        ensures { result ≡ place_of self.now.sequences name.now }
    {
        place_in(self.sequences.as_slice(), name)
    }

    /// The place of the service of just this name.
    pub(crate) fn service_place(&self, name: &[u8]) -> Option<u32>
        ensures { result ≡ place_of (service_names self.now.services) name.now }
    {
        place_in(self.services.as_slice(), name)
    }

    /// The rights of the service of just this name.
    pub fn service_named(&self, name: &Txt) -> Option<Rights>
        ensures value { result ≡ rights_of self.now.services name.now }
        ensures none { IsNone result ↔ (¬ Contains (service_names self.now.services) name.now) }
    {
        for service in self.services.as_slice() {
            if service.name.as_str() == name.as_str() {
                return Some(service.rights);
            }
        }
        None
    }

    /// The kind of a column, and whether it is not null. `None` where there is no such column.
    pub fn column(&self, table: u32, column: u32) -> Option<(Kind, bool)>
        ensures { result ≡ option_map shape_of (slice_get (columns_of self.now.tables table) column) }
    {
        match self.columns(table).get(column as usize) {
            Some(column) => Some((column.kind, column.not_null)),
            None => None,
        }
    }
}
