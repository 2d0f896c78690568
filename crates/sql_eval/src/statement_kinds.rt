//! The rules of kinds for a whole statement.

ghost use Rattle.std.specs.Prelude.{◌≡◌, map, Option};
ghost use Rattle.std.specs.List.{list_all};
ghost use Rattle.std.specs.Option.{option_copied};
ghost use Rattle.sql_eval.specs.declared.part_kind.PartKind.{PartKind as Kind};
ghost use Rattle.sql_eval.specs.declared.scope.Scope.{Scope as AnyScope};
ghost use Rattle.sql_eval.specs.Kinds.{are_inputs, entry_kind, fits_column, has_order, is_asked, is_change, is_item, is_key, is_number, is_total, is_where, kind_at, kind_of, kind_of_column, kinds_agree, passes, target_kinds};
ghost use Rattle.sql_tree.specs.Plain.{asked_of, change_of, entry_of, condition_of, plan_of, term_of, total_of};
ghost use Rattle.sql_eval.specs.Inside.Scope.{scope_columns};

use crate::part_kind::{PartKind, declared_kind, expr_kind};
use crate::ready::{
    Checked, Columns, Ready, ReadyAgg, ReadyInput, ReadyItems, ReadyKey, ReadySetting,
};
use crate::scope::Scope;
use desk_schema::Column;
use desk_values::Binds;

fn is_good_condition(scope: Scope<'_>, binds: &Binds, condition: &Option<Checked>) -> bool
    ensures { result ≡ is_where (scope_columns scope.entry) binds.now (condition_of condition.now) }
{
    match condition {
        Some(expr) => expr_kind(scope, binds, expr).is_some_and(|kind| kind.is_condition()),
        None => true,
    }
}

fn is_good_item(scope: Scope<'_>, binds: &Binds, expr: &Checked) -> bool
    ensures { result ≡ is_item (scope_columns scope.entry) binds.now (term_of expr.now) }
{
    expr_kind(scope, binds, expr).is_some_and(|kind| !kind.is_condition())
}

fn is_numeric_expr(scope: Scope<'_>, binds: &Binds, expr: &Checked) -> bool
    ensures { result ≡ passes is_number (kind_of (scope_columns scope.entry) binds.now (term_of expr.now)) }
{
    expr_kind(scope, binds, expr).is_some_and(|kind| kind.is_numeric())
}

fn is_ordered_expr(scope: Scope<'_>, binds: &Binds, expr: &Checked) -> bool
    ensures { result ≡ passes has_order (kind_of (scope_columns scope.entry) binds.now (term_of expr.now)) }
{
    expr_kind(scope, binds, expr).is_some_and(|kind| kind.is_ordered())
}

fn is_good_agg(scope: Scope<'_>, binds: &Binds, agg: &ReadyAgg) -> bool
    ensures { result ≡ is_total (scope_columns scope.entry) binds.now (total_of agg.now) }
{
    match agg {
        ReadyAgg::Count => true,
        ReadyAgg::Sum(expr) => is_numeric_expr(scope, binds, expr),
        ReadyAgg::Min(expr) => is_ordered_expr(scope, binds, expr),
        ReadyAgg::Max(expr) => is_ordered_expr(scope, binds, expr),
    }
}

fn are_good_items(scope: Scope<'_>, binds: &Binds, exprs: &[Checked]) -> bool
    ensures { result ≡ list_all (λ expr. is_item (scope_columns scope.entry) binds.now (term_of expr)) exprs.now }
{
    exprs.iter().all(|expr| is_good_item(scope, binds, expr))
}

fn are_good_aggs(scope: Scope<'_>, binds: &Binds, aggs: &[ReadyAgg]) -> bool
    ensures { result ≡ list_all (λ agg. is_total (scope_columns scope.entry) binds.now (total_of agg)) aggs.now }
{
    aggs.iter().all(|agg| is_good_agg(scope, binds, agg))
}

#[tactic(auto, using(crate::proofs::Mapped::all_mapped))]
fn asks_good_items(scope: Scope<'_>, binds: &Binds, items: &ReadyItems) -> bool
    ensures { result ≡ is_asked (scope_columns scope.entry) binds.now (asked_of items.now) }
{
    match items {
        ReadyItems::All => true,
        ReadyItems::Exprs(exprs) => are_good_items(scope, binds, exprs.as_slice()),
        ReadyItems::Aggs(aggs) => are_good_aggs(scope, binds, aggs.as_slice()),
    }
}

fn is_good_key(scope: Scope<'_>, key: &ReadyKey) -> bool
    ensures { result ≡ is_key (scope_columns scope.entry) key.now }
{
    scope
        .column_kind(key.column)
        .is_some_and(|kind| kind.is_ordered())
}

fn are_good_keys(scope: Scope<'_>, keys: &[ReadyKey]) -> bool
    ensures { result ≡ list_all (is_key (scope_columns scope.entry)) keys.now }
{
    keys.iter().all(|key| is_good_key(scope, key))
}

fn input_kind(scope: Scope<'_>, binds: &Binds, input: &ReadyInput) -> Option<PartKind>
    ensures { result ≡ entry_kind (scope_columns scope.entry) binds.now (entry_of input.now) }
{
    match input {
        ReadyInput::Expr(expr) => expr_kind(scope, binds, expr),
        ReadyInput::Next(sequence) => Some(PartKind::Seq(*sequence)),
    }
}

/// Whether the column of the first kind takes a value of the second.
fn is_fitting(target: Option<PartKind>, kind: Option<PartKind>) -> bool
    ensures { result ≡ fits_column target kind }
{
    match (target, kind) {
        (Some(target), Some(kind)) => target.takes(kind),
        _ => false,
    }
}

/// What an INSERT gives a value to: a column of the table, or the number of one that it names.
trait Target {
    /// The kind of its column, none where there is no such column.
    ghost kind_in: { AnyScope → Self → Option Kind };

    fn kind(&self, scope: Scope<'_>) -> Option<PartKind>
        ensures { result ≡ kind_in scope.entry self.now };
}

impl Target for Column {
    ghost use Rattle.std.specs.Prelude.{Some as Found};
    ghost use Rattle.sql_eval.specs.Kinds.{kind_of_column as kind_of_declared};

    ghost kind_in = { λ scope column. Found (kind_of_declared column.kind) };

    fn kind(&self, scope: Scope<'_>) -> Option<PartKind> {
        let _ = scope;
        Some(declared_kind(self.kind))
    }
}

impl Target for u32 {
    ghost use Rattle.sql_eval.specs.Kinds.{kind_at as kind_at_number};
    ghost use Rattle.sql_eval.specs.Inside.Scope.{scope_columns as columns};

    ghost kind_in = { λ scope number. kind_at_number (columns scope) number };

    fn kind(&self, scope: Scope<'_>) -> Option<PartKind> {
        scope.column_kind(*self)
    }
}

/// Whether there are as many inputs as targets, and each target takes its input. There are few, so this ends soon.
#[tactic(auto, using(crate::proofs::Inputs::too_many_inputs, crate::proofs::Inputs::too_few_inputs))]
fn targets_take<T: Target>(
    scope: Scope<'_>,
    binds: &Binds,
    targets: &[T],
    inputs: &[ReadyInput],
) -> bool
    ensures { result
        ≡ are_inputs (scope_columns scope.entry) binds.now (map (T.kind_in scope.entry) targets.now) (map entry_of inputs.now) }
{
    match (targets, inputs) {
        ([], []) => true,
        ([target, targets @ ..], [input, inputs @ ..]) => {
            is_fitting(target.kind(scope), input_kind(scope, binds, input))
                && targets_take(scope, binds, targets, inputs)
        }
        ([], [_, ..]) => false,
        ([_, ..], []) => false,
    }
}

fn are_good_inputs(
    scope: Scope<'_>,
    binds: &Binds,
    named: &Option<Columns>,
    inputs: &[ReadyInput],
) -> bool
    ensures { result
        ≡ are_inputs (scope_columns scope.entry) binds.now (target_kinds (scope_columns scope.entry) named.now)
        (map entry_of inputs.now) }
{
    match named {
        Some(places) => targets_take(scope, binds, places.as_slice(), inputs),
        None => targets_take(scope, binds, scope.columns(), inputs),
    }
}

fn is_good_setting(scope: Scope<'_>, binds: &Binds, setting: &ReadySetting) -> bool
    ensures { result ≡ is_change (scope_columns scope.entry) binds.now (change_of setting.now) }
{
    is_fitting(
        scope.column_kind(setting.column),
        expr_kind(scope, binds, &setting.to),
    )
}

fn are_good_settings(scope: Scope<'_>, binds: &Binds, settings: &[ReadySetting]) -> bool
    ensures { result ≡ list_all (λ setting. is_change (scope_columns scope.entry) binds.now (change_of setting)) settings.now }
{
    settings
        .iter()
        .all(|setting| is_good_setting(scope, binds, setting))
}

/// Whether no rule of kinds is broken in the statement.
#[tactic(auto, using(crate::proofs::Mapped::all_mapped))]
pub(crate) fn keeps_kinds(scope: Scope<'_>, binds: &Binds, ready: &Ready) -> bool
    ensures { result ≡ kinds_agree (scope_columns scope.entry) binds.now (plan_of ready.now) }
{
    match ready {
        Ready::Select(_, items, condition, keys, _) => {
            asks_good_items(scope, binds, items)
                && is_good_condition(scope, binds, condition)
                && are_good_keys(scope, keys.as_slice())
        }
        Ready::Insert(_, named, inputs) => {
            are_good_inputs(scope, binds, named, inputs.as_slice())
        }
        Ready::Update(_, settings, condition) => {
            are_good_settings(scope, binds, settings.as_slice())
                && is_good_condition(scope, binds, condition)
        }
        Ready::Delete(_, condition) => is_good_condition(scope, binds, condition),
        Ready::Next(_) => true,
        Ready::Commit => true,
        Ready::Rollback => true,
        Ready::SetReadOnly => true,
        Ready::Savepoint(_) => true,
        Ready::RollbackTo(_) => true,
    }
}
