//! Tests of leaves: of the parts of an expression that have no parts themselves.

ghost use Rattle.std.specs.Prelude.{◌≡◌, map};
ghost use Rattle.std.specs.List.{flat_map, list_any};
ghost use Rattle.sql_tree.specs.Leaves.{asked_leaves, change_leaves, condition_leaves, leaves, plan_leaves};
ghost use Rattle.sql_tree.specs.Plain.{asked_of, change_of, condition_of, plan_of, term_of};

use crate::tree::{Agg, Expr, Input, Items, Setting, Statement};
use desk_values::List;

/// A test of a leaf, as whether it is a bind that was not given.
pub trait LeafTest<N> {
    ghost use Rattle.std.specs.Prelude.{Bool};
    ghost use Rattle.sql_tree.specs.Plain.{Term, term_of as plain};

    /// What the test answers.
    ghost test: { Self → Term N → Bool };

    /// Whether the leaf passes. It is `Null`, `Int`, `Text`, `Bind`, `Column` or `RowId`.
    fn passes(&self, leaf: &Expr<N>) -> bool
        ensures { result ≡ test self.now (plain leaf.now) };
}

impl<N> Expr<N> {
    /// Whether some leaf passes the test.
    #[tactic(auto, using(crate::proofs::Lists::joined))]
    pub fn any_leaf<T: LeafTest<N>>(&self, test: &T) -> bool
        ensures { result ≡ list_any (T.test test.now) (leaves (term_of self.now)) }
    {
        match self {
            Expr::Neg(of) => of.any_leaf(test),
            Expr::Not(of) => of.any_leaf(test),
            Expr::Bin(_, left, right) => left.any_leaf(test) || right.any_leaf(test),
            Expr::IsNull(of) => of.any_leaf(test),
            Expr::NotNull(of) => of.any_leaf(test),
            leaf => test.passes(leaf),
        }
    }
}

// A part of a statement that stands in a list.
trait HasLeaves<N> {
    ghost use Rattle.std.specs.Prelude.{List};
    ghost use Rattle.sql_tree.specs.Plain.{Term};

    ghost leaves: { Self → List (Term N) };

    fn has_leaf<T: LeafTest<N>>(&self, test: &T) -> bool
        ensures { result ≡ list_any (T.test test.now) (leaves self.now) };
}

impl<N> HasLeaves<N> for Expr<N> {
    ghost use Rattle.sql_tree.specs.Leaves.{leaves as inside};
    ghost use Rattle.sql_tree.specs.Plain.{term_of as plain};

    ghost leaves = { λ expr. inside (plain expr) };

    fn has_leaf<T: LeafTest<N>>(&self, test: &T) -> bool {
        self.any_leaf(test)
    }
}

impl<N> HasLeaves<N> for Agg<N> {
    ghost use Rattle.sql_tree.specs.Leaves.{total_leaves as inside};
    ghost use Rattle.sql_tree.specs.Plain.{total_of as plain};

    ghost leaves = { λ agg. inside (plain agg) };

    fn has_leaf<T: LeafTest<N>>(&self, test: &T) -> bool {
        match self {
            Agg::Count => false,
            Agg::Sum(of) => of.any_leaf(test),
            Agg::Min(of) => of.any_leaf(test),
            Agg::Max(of) => of.any_leaf(test),
        }
    }
}

impl<N> HasLeaves<N> for Input<N> {
    ghost use Rattle.sql_tree.specs.Leaves.{entry_leaves as inside};
    ghost use Rattle.sql_tree.specs.Plain.{entry_of as plain};

    ghost leaves = { λ input. inside (plain input) };

    fn has_leaf<T: LeafTest<N>>(&self, test: &T) -> bool {
        match self {
            Input::Expr(expr) => expr.any_leaf(test),
            Input::Next(_) => false,
        }
    }
}

impl<N> HasLeaves<N> for Setting<N> {
    ghost use Rattle.sql_tree.specs.Leaves.{change_leaves as inside};
    ghost use Rattle.sql_tree.specs.Plain.{change_of as plain};

    ghost leaves = { λ setting. inside (plain setting) };

    fn has_leaf<T: LeafTest<N>>(&self, test: &T) -> bool {
        self.to.any_leaf(test)
    }
}

#[tactic(auto, using(crate::proofs::Lists::any_within))]
fn some_has_leaf<N, T: LeafTest<N>, P: HasLeaves<N>>(test: &T, parts: &[P]) -> bool
    ensures { result ≡ list_any (T.test test.now) (flat_map P.leaves parts.now) }
{
    for part in parts {
        if part.has_leaf(test) {
            return true;
        }
    }
    false
}

#[tactic(auto, using(crate::proofs::Lists::joined))]
fn some_setting_has_leaf<N, T: LeafTest<N>>(test: &T, settings: &List<Setting<N>>) -> bool
    ensures { result ≡ list_any (T.test test.now) (flat_map change_leaves (map change_of settings.now)) }
{
    some_has_leaf(test, settings.as_slice())
}

fn condition_has_leaf<N, T: LeafTest<N>>(test: &T, condition: &Option<Expr<N>>) -> bool
    ensures { result ≡ list_any (T.test test.now) (condition_leaves (condition_of condition.now)) }
{
    match condition {
        Some(expr) => expr.any_leaf(test),
        None => false,
    }
}

impl<N> Items<N> {
    #[tactic(auto, using(crate::proofs::Lists::joined))]
    fn any_leaf<T: LeafTest<N>>(&self, test: &T) -> bool
        ensures { result ≡ list_any (T.test test.now) (asked_leaves (asked_of self.now)) }
    {
        match self {
            Items::All => false,
            Items::Exprs(exprs) => some_has_leaf(test, exprs.as_slice()),
            Items::Aggs(aggs) => some_has_leaf(test, aggs.as_slice()),
        }
    }
}

impl<N> Statement<N> {
    /// Whether some leaf of the statement's expressions passes the test.
    #[tactic(auto, using(crate::proofs::Lists::joined))]
    pub fn any_leaf<T: LeafTest<N>>(&self, test: &T) -> bool
        ensures { result ≡ list_any (T.test test.now) (plan_leaves (plan_of self.now)) }
    {
        match self {
            Statement::Select(_, items, condition, _, _) => {
                items.any_leaf(test) || condition_has_leaf(test, condition)
            }
            Statement::Insert(_, _, inputs) => some_has_leaf(test, inputs.as_slice()),
            Statement::Update(_, settings, condition) => {
                some_setting_has_leaf(test, settings) || condition_has_leaf(test, condition)
            }
            Statement::Delete(_, condition) => condition_has_leaf(test, condition),
            Statement::Next(_) => false,
            Statement::Commit => false,
            Statement::Rollback => false,
            Statement::SetReadOnly => false,
            Statement::Savepoint(_) => false,
            Statement::RollbackTo(_) => false,
        }
    }
}
