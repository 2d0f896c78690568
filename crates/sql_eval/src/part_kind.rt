ghost use Rattle.std.specs.Prelude.{◌≡◌, option_map};
ghost use Rattle.sql_eval.specs.Kinds.{has_order, is_comparable, is_null_kind, is_number, is_same_kind, is_taken, is_truth, kept, kind_at, kind_of, kind_of_column, kind_of_value, operator_kind};
ghost use Rattle.sql_tree.specs.Plain.{term_of};
ghost use Rattle.sql_eval.specs.Inside.Scope.{scope_columns};
ghost use Rattle.sql_eval.specs.Value.{bind_at};

use crate::ready::Checked;
use crate::scope::Scope;
use desk_schema::Kind;
use desk_values::{Binds, Value};
use sql_tree::Op;

/// The kind of a part of an expression.
#[derive(Clone, Copy, Debug, PartialEq, Eq)]
pub(crate) enum PartKind {
    /// A Null, which goes with every kind.
    Null,
    /// A whole number.
    Int,
    /// A text.
    Text,
    /// The id of a row.
    Row,
    /// A value drawn from the sequence of this number.
    Seq(u32),
    /// A condition.
    Truth,
}

impl PartKind {
    fn is_null(self) -> bool
        ensures { result ≡ is_null_kind self }
    {
        matches!(self, PartKind::Null)
    }

    /// Whether it is a condition.
    pub(crate) fn is_condition(self) -> bool
        ensures { result ≡ is_truth self }
    {
        matches!(self, PartKind::Truth)
    }

    /// Whether arithmetic takes it.
    pub(crate) fn is_numeric(self) -> bool
        ensures { result ≡ is_number self }
    {
        matches!(self, PartKind::Null | PartKind::Int)
    }

    /// Whether its values have an order.
    pub(crate) fn is_ordered(self) -> bool
        ensures { result ≡ has_order self }
    {
        matches!(self, PartKind::Null | PartKind::Int | PartKind::Text)
    }

    fn is_same(self, other: PartKind) -> bool
        ensures { result ≡ is_same_kind self other }
    {
        self == other
    }

    fn compares_with(self, other: PartKind) -> bool
        ensures { result ≡ is_comparable self other }
    {
        !self.is_condition()
            && !other.is_condition()
            && (self.is_null() || other.is_null() || self.is_same(other))
    }

    /// Whether a column of this kind takes a value of the other one.
    pub(crate) fn takes(self, other: PartKind) -> bool
        ensures { result ≡ is_taken self other }
    {
        other.is_null() || other.is_same(self)
    }
}

/// The kind of a value.
fn value_kind(value: &Value) -> PartKind
    ensures { result ≡ kind_of_value value.now }
{
    match value {
        Value::Null => PartKind::Null,
        Value::Int(_) => PartKind::Int,
        Value::Text(_) => PartKind::Text,
        Value::Row(_) => PartKind::Row,
        Value::Draw(sequence, _) => PartKind::Seq(*sequence),
    }
}

/// The kind of the bind of a number from 1.
fn bind_kind(binds: &Binds, number: u32) -> Option<PartKind>
    ensures { result ≡ option_map kind_of_value (bind_at binds.now number) }
{
    let place = number.checked_sub(1)?;
    binds.get(place as usize).map(|value| value_kind(value))
}

/// The kind of what a column of this declaration holds.
pub(crate) fn declared_kind(kind: Kind) -> PartKind
    ensures { result ≡ kind_of_column kind }
{
    match kind {
        Kind::Int(_, _) => PartKind::Int,
        Kind::Text(_) => PartKind::Text,
        Kind::Seq(sequence) => PartKind::Seq(sequence),
    }
}

/// The kind, where the rule is kept.
fn kept_kind(rule: bool, kind: PartKind) -> Option<PartKind>
    ensures { result ≡ kept rule kind }
{
    if rule { Some(kind) } else { None }
}

/// The kind of an operation on parts of these kinds.
fn kind_of_operator(op: Op, left: PartKind, right: PartKind) -> Option<PartKind>
    ensures { result ≡ operator_kind op left right }
{
    match op {
        Op::Add | Op::Sub | Op::Mul | Op::Div => {
            kept_kind(left.is_numeric() && right.is_numeric(), PartKind::Int)
        }
        Op::Eq | Op::Ne => kept_kind(left.compares_with(right), PartKind::Truth),
        Op::Lt | Op::Le | Op::Gt | Op::Ge => kept_kind(
            left.compares_with(right) && left.is_ordered() && right.is_ordered(),
            PartKind::Truth,
        ),
        Op::And | Op::Or => kept_kind(left.is_condition() && right.is_condition(), PartKind::Truth),
    }
}

/// The kind of an expression over the columns of a table. `None` where it breaks a rule of kinds.
pub(crate) fn expr_kind(scope: Scope<'_>, binds: &Binds, expr: &Checked) -> Option<PartKind>
    ensures { result ≡ kind_of (scope_columns scope.entry) binds.now (term_of expr.now) }
{
    match expr {
        Checked::Null => Some(PartKind::Null),
        Checked::Int(_) => Some(PartKind::Int),
        Checked::Text(_) => Some(PartKind::Text),
        Checked::Bind(number) => bind_kind(binds, *number),
        Checked::Column(column) => scope.column_kind(*column),
        Checked::RowId => Some(PartKind::Row),
        Checked::Neg(operand) => {
            let kind = expr_kind(scope, binds, operand)?;
            kept_kind(kind.is_numeric(), PartKind::Int)
        }
        Checked::Not(operand) => {
            let kind = expr_kind(scope, binds, operand)?;
            kept_kind(kind.is_condition(), PartKind::Truth)
        }
        Checked::Bin(op, left, right) => {
            let left = expr_kind(scope, binds, left)?;
            let right = expr_kind(scope, binds, right)?;
            kind_of_operator(*op, left, right)
        }
        Checked::IsNull(operand) => {
            let kind = expr_kind(scope, binds, operand)?;
            kept_kind(!kind.is_condition(), PartKind::Truth)
        }
        Checked::NotNull(operand) => {
            let kind = expr_kind(scope, binds, operand)?;
            kept_kind(!kind.is_condition(), PartKind::Truth)
        }
    }
}
