//! Names in a statement that a schema does not have.

ghost use Rattle.std.specs.Prelude.{◌≡◌, [], nat_eq};
ghost use Rattle.std.specs.Option.{option_copied};
ghost use Rattle.std.specs.List.{cons_option, list_any};
ghost use Rattle.sql_tree.specs.Plain.{entry_of, plan_of};
ghost use Rattle.sql_eval.specs.Check.{drawn_sequences, entry_sequence, given_columns, listed_columns, misplaces_column};
ghost use Rattle.sql_eval.specs.SchemaNames.{has_twice, is_unknown, is_unknown_table, table_number, table_of};
ghost use Rattle.sql_eval.specs.Inside.Scope.{scope_column_names, scope_sequences};

use crate::ready::{Ready, ReadySetting};
use crate::scope::Scope;
use desk_schema::Schema;
use desk_values::Txt;
use sql_tree::{Expr, Input, Key, LeafTest, Setting, Statement};

/// The name of the statement's table.
fn table_name(statement: &Statement) -> Option<&Txt>
    ensures { option_copied result ≡ table_of (plan_of statement.now) }
{
    match statement {
        Statement::Select(table, _, _, _, _) => Some(table),
        Statement::Insert(table, _, _) => Some(table),
        Statement::Update(table, _, _) => Some(table),
        Statement::Delete(table, _) => Some(table),
        Statement::Next(_) => None,
        Statement::Commit => None,
        Statement::Rollback => None,
        Statement::SetReadOnly => None,
        Statement::Savepoint(_) => None,
        Statement::RollbackTo(_) => None,
    }
}

/// Whether the statement's table is not in the schema.
pub(crate) fn names_unknown_table(schema: &Schema, statement: &Statement) -> bool
    ensures { result ≡ is_unknown_table schema.now.tables (table_of (plan_of statement.now)) }
{
    match table_name(statement) {
        Some(name) => schema.table_named(name).is_none(),
        None => false,
    }
}

/// The number of the statement's table, 0 where it has none.
pub(crate) fn statement_table(schema: &Schema, statement: &Statement) -> u32
    ensures { result ≡ table_number schema.now.tables (table_of (plan_of statement.now)) }
{
    match table_name(statement) {
        Some(name) => schema.table_named(name).unwrap_or(0),
        None => 0,
    }
}

/// A column that the table lacks.
#[derive(Clone, Copy)]
struct UnknownColumn<'a> {
    scope: Scope<'a>,
}

impl<'a> LeafTest<Txt> for UnknownColumn<'a> {
    ghost use Rattle.sql_eval.specs.Check.{is_unknown_column as unknown};
    ghost use Rattle.sql_eval.specs.Inside.Scope.{scope_column_names as names};

    ghost test = { λ of leaf. unknown (names of.scope) leaf };

    fn passes(&self, leaf: &Expr) -> bool {
        match leaf {
            Expr::Column(name) => self.scope.column_named(name).is_none(),
            _ => false,
        }
    }
}

/// A column, or ROWID.
#[derive(Clone, Copy)]
struct OfRow;

impl LeafTest<Txt> for OfRow {
    ghost use Rattle.sql_eval.specs.Check.{is_of_row as of_row};

    ghost test = { λ _ leaf. of_row leaf };

    fn passes(&self, leaf: &Expr) -> bool {
        matches!(leaf, Expr::Column(_) | Expr::RowId)
    }
}

/// A bind that was not given.
#[derive(Clone, Copy)]
pub(crate) struct MissingBind {
    /// How many binds there are.
    pub(crate) count: usize,
}

impl LeafTest<Txt> for MissingBind {
    ghost use Rattle.sql_eval.specs.Check.{is_missing_bind as missing};

    ghost test = { λ of leaf. missing of.count leaf };

    fn passes(&self, leaf: &Expr) -> bool {
        match leaf {
            Expr::Bind(number) => *number == 0 || self.count < *number as usize,
            _ => false,
        }
    }
}

/// Whether an expression has a column that is not in the table, or in an INSERT any column or ROWID.
pub(crate) fn misplaces_column(scope: Scope<'_>, statement: &Statement) -> bool
    ensures { result ≡ misplaces_column (scope_column_names scope.entry) (plan_of statement.now) }
{
    match statement {
        Statement::Insert(_, _, _) => statement.any_leaf(&OfRow),
        _ => statement.any_leaf(&UnknownColumn { scope }),
    }
}

fn some_key_is_unknown(scope: Scope<'_>, keys: &[Key]) -> bool
    ensures { result ≡ list_any (λ key. is_unknown (scope_column_names scope.entry) key.column) keys.now }
{
    keys.iter()
        .any(|key| scope.column_named(&key.column).is_none())
}

fn some_name_is_unknown(scope: Scope<'_>, names: &[Txt]) -> bool
    ensures { result ≡ list_any (is_unknown (scope_column_names scope.entry)) names.now }
{
    names.iter().any(|name| scope.column_named(name).is_none())
}

fn some_setting_is_unknown(scope: Scope<'_>, settings: &[Setting]) -> bool
    ensures { result ≡ list_any (λ setting. is_unknown (scope_column_names scope.entry) setting.column) settings.now }
{
    settings
        .iter()
        .any(|setting| scope.column_named(&setting.column).is_none())
}

/// Whether ORDER BY, an INSERT's list or SET has a column that is not in the table.
#[tactic(auto, using(crate::proofs::Mapped::any_mapped))]
pub(crate) fn lists_unknown_column(scope: Scope<'_>, statement: &Statement) -> bool
    ensures { result ≡ list_any (is_unknown (scope_column_names scope.entry)) (listed_columns (plan_of statement.now)) }
{
    match statement {
        Statement::Select(_, _, _, keys, _) => some_key_is_unknown(scope, keys.as_slice()),
        Statement::Insert(_, Some(names), _) => some_name_is_unknown(scope, names.as_slice()),
        Statement::Update(_, settings, _) => some_setting_is_unknown(scope, settings.as_slice()),
        _ => false,
    }
}

fn draws_unknown(scope: Scope<'_>, input: &Input) -> bool
    ensures { result ≡ list_any (is_unknown (scope_sequences scope.entry)) (cons_option (entry_sequence (entry_of input.now)) []) }
{
    match input {
        Input::Expr(_) => false,
        Input::Next(sequence) => scope.sequence_named(sequence).is_none(),
    }
}

fn some_input_draws_unknown(scope: Scope<'_>, inputs: &[Input]) -> bool
    ensures { result ≡ list_any
        (λ input. list_any (is_unknown (scope_sequences scope.entry)) (cons_option (entry_sequence (entry_of input)) [])) inputs.now }
{
    inputs.iter().any(|input| draws_unknown(scope, input))
}

/// Whether a sequence is not in the schema.
#[tactic(auto, using(crate::proofs::Mapped::any_chosen))]
pub(crate) fn draws_unknown_sequence(scope: Scope<'_>, statement: &Statement) -> bool
    ensures { result ≡ list_any (is_unknown (scope_sequences scope.entry)) (drawn_sequences (plan_of statement.now)) }
{
    match statement {
        Statement::Next(sequence) => scope.sequence_named(sequence).is_none(),
        Statement::Insert(_, _, inputs) => some_input_draws_unknown(scope, inputs.as_slice()),
        _ => false,
    }
}

/// Whether a number stands twice. Columns have few numbers, so this ends soon.
fn stands_twice(places: &[u32]) -> bool
    ensures { result ≡ has_twice (λ place. place) places.now }
{
    match places {
        [] => false,
        [place, others @ ..] => others.contains(place) || stands_twice(others),
    }
}

#[tactic(auto, using(crate::proofs::Mapped::twice_step))]
fn is_set_twice(settings: &[ReadySetting]) -> bool
    ensures { result ≡ has_twice (λ setting. setting.column) settings.now }
{
    match settings {
        [] => false,
        [setting, others @ ..] => is_set_in(setting.column, others) || is_set_twice(others),
    }
}

fn is_set_in(column: u32, settings: &[ReadySetting]) -> bool
    ensures { result ≡ list_any (λ other. nat_eq other.column column) settings.now }
{
    settings.iter().any(|setting| setting.column == column)
}

/// Whether a column is named twice where that may not be.
#[tactic(auto, using(crate::proofs::Mapped::twice_mapped))]
pub(crate) fn gives_column_twice(ready: &Ready) -> bool
    ensures { result ≡ has_twice (λ column. column) (given_columns (plan_of ready.now)) }
{
    match ready {
        Ready::Insert(_, Some(places), _) => stands_twice(places.as_slice()),
        Ready::Update(_, settings, _) => is_set_twice(settings.as_slice()),
        _ => false,
    }
}
