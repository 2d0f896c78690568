//! What the names of a statement stand for, and the numbers for them.

ghost use Rattle.std.specs.Prelude.{◌≡◌};
ghost use Rattle.desk_schema.specs.Schema.{place_ignoring_case};
ghost use Rattle.sql_eval.specs.Kinds.{kind_at};
ghost use Rattle.sql_eval.specs.SchemaNames.{number_of};
ghost use Rattle.sql_eval.specs.Inside.Scope.{scope_column_names, scope_columns, scope_sequences};

use crate::part_kind::{PartKind, declared_kind};
use desk_schema::{Column, Schema};
use desk_values::Txt;
use sql_tree::Renames;

/// A schema, and the number of a statement's table in it.
#[derive(Clone, Copy)]
pub(crate) struct Scope<'a> {
    pub(crate) schema: &'a Schema,
    pub(crate) table: u32,
}

impl<'a> Scope<'a> {
    /// The number of the column of this name.
    pub(crate) fn column_named(self, name: &Txt) -> Option<u32>
        ensures { result ≡ place_ignoring_case (scope_column_names self.entry) name.now }
    {
        self.schema.column_named(self.table, name)
    }

    /// The number of the sequence of this name.
    pub(crate) fn sequence_named(self, name: &Txt) -> Option<u32>
        ensures { result ≡ place_ignoring_case (scope_sequences self.entry) name.now }
    {
        self.schema.seq_named(name)
    }

    /// The kind of a column by its number. `None` where there is no such column.
    pub(crate) fn column_kind(self, column: u32) -> Option<PartKind>
        ensures { result ≡ kind_at (scope_columns self.entry) column }
    {
        self.schema
            .column(self.table, column)
            .map(|(kind, _)| declared_kind(kind))
    }

    /// The columns, none where there is no such table.
    pub(crate) fn columns(self) -> &'a [Column]
        ensures { result.now ≡ scope_columns self.entry }
    {
        match self.schema.tables().get(self.table as usize) {
            Some(table) => table.columns.as_slice(),
            None => &[],
        }
    }
}

fn column_number(scope: Scope<'_>, name: &Txt) -> u32
    ensures { result ≡ number_of (scope_column_names scope.entry) name.now }
{
    scope.column_named(name).unwrap_or(0)
}

fn sequence_number(scope: Scope<'_>, name: &Txt) -> u32
    ensures { result ≡ number_of (scope_sequences scope.entry) name.now }
{
    scope.sequence_named(name).unwrap_or(0)
}

impl<'a> Renames<Txt> for Scope<'a> {
    ghost use Rattle.sql_eval.specs.SchemaNames.{numbers};
    ghost use Rattle.sql_eval.specs.Inside.Scope.{scope_column_names as names, scope_sequences as sequences};

    type To = u32;

    ghost naming = { λ scope. numbers scope.table (names scope) (sequences scope) };

    fn table(&self, name: &Txt) -> u32 {
        let _ = name;
        self.table
    }

    fn column(&self, name: &Txt) -> u32 {
        column_number(*self, name)
    }

    fn sequence(&self, name: &Txt) -> u32 {
        sequence_number(*self, name)
    }
}
