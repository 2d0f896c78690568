//! Trees with each name another, for any kind of name.

ghost use Rattle.std.specs.Prelude.{◌≡◌, IfOk, map};
ghost use Rattle.sql_tree.specs.Plain.{change_of, condition_of, plan_of, asked_of, term_of};
ghost use Rattle.sql_tree.specs.Naming.{map_asked, map_change, map_condition, map_named, map_plan, map_term};

use crate::tree::{Agg, Expr, Input, Items, Key, Setting, Statement};
use desk_values::{Copied, List, Memory};
use std::alloc::Global;

/// What gives names others.
pub trait Renames<N> {
    ghost use Rattle.sql_tree.specs.Naming.{Naming};

    /// A new name.
    type To: Drop;

    /// The new names.
    ghost naming: { Self → Naming N Self.To };

    /// A table's new name.
    fn table(&self, name: &N) -> Self::To
        ensures { result ≡ (naming self.now).table name.now };

    /// A column's new name.
    fn column(&self, name: &N) -> Self::To
        ensures { result ≡ (naming self.now).column name.now };

    /// A sequence's new name.
    fn sequence(&self, name: &N) -> Self::To
        ensures { result ≡ (naming self.now).sequence name.now };
}

impl<N> Expr<N> {
    /// The expression with each column another.
    pub fn renamed<R: Renames<N>>(&self, alloc: Global, by: &R) -> Result<Expr<R::To>, Memory>
        ensures { IfOk result (λ tree. term_of tree ≡ map_term (R.naming by.now).column (term_of self.now)) }
    {
        match self {
            Expr::Null => Ok(Expr::Null),
            Expr::Int(number) => Ok(Expr::Int(*number)),
            Expr::Text(text) => Ok(Expr::Text(text.copy()?)),
            Expr::Bind(number) => Ok(Expr::Bind(*number)),
            Expr::Column(name) => Ok(Expr::Column(by.column(name))),
            Expr::RowId => Ok(Expr::RowId),
            Expr::Neg(of) => {
                let of = of.renamed(alloc, by)?;
                Ok(Expr::Neg(Box::new(alloc, of)?))
            }
            Expr::Not(of) => {
                let of = of.renamed(alloc, by)?;
                Ok(Expr::Not(Box::new(alloc, of)?))
            }
            Expr::Bin(op, left, right) => {
                let left = left.renamed(alloc, by)?;
                let right = right.renamed(alloc, by)?;
                Ok(Expr::Bin(*op, Box::new(alloc, left)?, Box::new(alloc, right)?))
            }
            Expr::IsNull(of) => {
                let of = of.renamed(alloc, by)?;
                Ok(Expr::IsNull(Box::new(alloc, of)?))
            }
            Expr::NotNull(of) => {
                let of = of.renamed(alloc, by)?;
                Ok(Expr::NotNull(Box::new(alloc, of)?))
            }
        }
    }
}

/// A part of a statement that stands in a list.
trait Renamed<N, R: Renames<N>> {
    /// The part with other names.
    type Output: Drop;

    /// The plain value of such a part.
    ghost Plain: { Type 0 };

    ghost view: { Self.Output → Plain };

    /// The plain value that the part gets.
    ghost renaming: { R → Self → Plain };

    fn renamed_part(&self, alloc: Global, by: &R) -> Result<Self::Output, Memory>
        ensures { IfOk result (λ output. view output ≡ renaming by.now self.now) };
}

fn renamed_list<N, R: Renames<N>, T: Renamed<N, R>>(
    alloc: Global,
    by: &R,
    parts: &[T],
) -> Result<List<T::Output>, Memory>
    ensures { IfOk result (λ list. map T.view list ≡ map (T.renaming by.now) parts.now) }
{
    let mut list = List::new(alloc);
    for part in parts {
        list.push(part.renamed_part(alloc, by)?)?;
    }
    Ok(list)
}

/// A name of a column.
impl<N, R: Renames<N>> Renamed<N, R> for Expr<N> {
    ghost use Rattle.sql_tree.specs.Plain.{Term as Plainly, term_of as plain};
    ghost use Rattle.sql_tree.specs.Naming.{map_term as mapped};

    type Output = Expr<R::To>;

    ghost Plain = { Plainly R.To };

    ghost view = { plain };

    ghost renaming = { λ by tree. mapped (R.naming by).column (plain tree) };

    fn renamed_part(&self, alloc: Global, by: &R) -> Result<Expr<R::To>, Memory> {
        self.renamed(alloc, by)
    }
}

impl<N, R: Renames<N>> Renamed<N, R> for Agg<N> {
    ghost use Rattle.sql_tree.specs.Plain.{Total as Plainly, total_of as plain};
    ghost use Rattle.sql_tree.specs.Naming.{map_total as mapped};

    type Output = Agg<R::To>;

    ghost Plain = { Plainly R.To };

    ghost view = { plain };

    ghost renaming = { λ by agg. mapped (R.naming by).column (plain agg) };

    fn renamed_part(&self, alloc: Global, by: &R) -> Result<Agg<R::To>, Memory> {
        match self {
            Agg::Count => Ok(Agg::Count),
            Agg::Sum(of) => Ok(Agg::Sum(of.renamed(alloc, by)?)),
            Agg::Min(of) => Ok(Agg::Min(of.renamed(alloc, by)?)),
            Agg::Max(of) => Ok(Agg::Max(of.renamed(alloc, by)?)),
        }
    }
}

impl<N, R: Renames<N>> Renamed<N, R> for Key<N> {
    ghost use Rattle.sql_tree.specs.declared.tree.Key.{Key as Plainly};
    ghost use Rattle.sql_tree.specs.Naming.{map_key as mapped};

    type Output = Key<R::To>;

    ghost Plain = { Plainly R.To };

    ghost view = { λ key. key };

    ghost renaming = { λ by key. mapped (R.naming by).column key };

    fn renamed_part(&self, alloc: Global, by: &R) -> Result<Key<R::To>, Memory> {
        let _ = alloc;
        let column = by.column(&self.column);
        Ok(Key {
            column,
            desc: self.desc,
        })
    }
}

impl<N, R: Renames<N>> Renamed<N, R> for Input<N> {
    ghost use Rattle.sql_tree.specs.Plain.{Entry as Plainly, entry_of as plain};
    ghost use Rattle.sql_tree.specs.Naming.{map_entry as mapped};

    type Output = Input<R::To>;

    ghost Plain = { Plainly R.To };

    ghost view = { plain };

    ghost renaming = { λ by input. mapped (R.naming by) (plain input) };

    fn renamed_part(&self, alloc: Global, by: &R) -> Result<Input<R::To>, Memory> {
        match self {
            Input::Expr(expr) => Ok(Input::Expr(expr.renamed(alloc, by)?)),
            Input::Next(sequence) => Ok(Input::Next(by.sequence(sequence))),
        }
    }
}

impl<N, R: Renames<N>> Renamed<N, R> for Setting<N> {
    ghost use Rattle.sql_tree.specs.Plain.{Change as Plainly, change_of as plain};
    ghost use Rattle.sql_tree.specs.Naming.{map_change as mapped};

    type Output = Setting<R::To>;

    ghost Plain = { Plainly R.To };

    ghost view = { plain };

    ghost renaming = { λ by setting. mapped (R.naming by).column (plain setting) };

    fn renamed_part(&self, alloc: Global, by: &R) -> Result<Setting<R::To>, Memory> {
        let column = by.column(&self.column);
        let to = self.to.renamed(alloc, by)?;
        Ok(Setting { column, to })
    }
}

fn renamed_condition<N, R: Renames<N>>(
    alloc: Global,
    by: &R,
    condition: &Option<Expr<N>>,
) -> Result<Option<Expr<R::To>>, Memory>
    ensures { IfOk result (λ renamed. condition_of renamed ≡ map_condition (R.naming by.now).column (condition_of condition.now)) }
{
    match condition {
        Some(expr) => Ok(Some(expr.renamed(alloc, by)?)),
        None => Ok(None),
    }
}

fn renamed_columns<N, R: Renames<N>>(
    alloc: Global,
    by: &R,
    names: &List<N>,
) -> Result<List<R::To>, Memory>
    ensures { IfOk result (λ renamed. renamed ≡ map (R.naming by.now).column names.now) }
{
    let mut list = List::new(alloc);
    for name in names.as_slice() {
        list.push(by.column(name))?;
    }
    Ok(list)
}

fn renamed_named<N, R: Renames<N>>(
    alloc: Global,
    by: &R,
    named: &Option<List<N>>,
) -> Result<Option<List<R::To>>, Memory>
    ensures { IfOk result (λ renamed. renamed ≡ map_named (R.naming by.now).column named.now) }
{
    match named {
        Some(names) => Ok(Some(renamed_columns(alloc, by, names)?)),
        None => Ok(None),
    }
}

#[tactic(auto, using(crate::proofs::Lists::mapped_twice))]
fn renamed_settings<N, R: Renames<N>>(
    alloc: Global,
    by: &R,
    settings: &List<Setting<N>>,
) -> Result<List<Setting<R::To>>, Memory>
    ensures { IfOk result (λ renamed. map change_of renamed ≡ map (map_change (R.naming by.now).column) (map change_of settings.now)) }
{
    renamed_list(alloc, by, settings.as_slice())
}

impl<N> Items<N> {
    #[tactic(auto, using(crate::proofs::Lists::mapped_twice))]
    fn renamed<R: Renames<N>>(&self, alloc: Global, by: &R) -> Result<Items<R::To>, Memory>
        ensures { IfOk result (λ items. asked_of items ≡ map_asked (R.naming by.now).column (asked_of self.now)) }
    {
        match self {
            Items::All => Ok(Items::All),
            Items::Exprs(exprs) => {
                let exprs = renamed_list(alloc, by, exprs.as_slice())?;
                Ok(Items::Exprs(exprs))
            }
            Items::Aggs(aggs) => {
                let aggs = renamed_list(alloc, by, aggs.as_slice())?;
                Ok(Items::Aggs(aggs))
            }
        }
    }
}

impl<N> Statement<N> {
    /// The statement with other names.
    #[tactic(auto, using(crate::proofs::Lists::mapped_twice))]
    pub fn renamed<R: Renames<N>>(&self, alloc: Global, by: &R) -> Result<Statement<R::To>, Memory>
        ensures { IfOk result (λ renamed. plan_of renamed ≡ map_plan (R.naming by.now) (plan_of self.now)) }
    {
        match self {
            Statement::Select(table, items, condition, keys, held) => {
                let items = items.renamed(alloc, by)?;
                let condition = renamed_condition(alloc, by, condition)?;
                let keys = renamed_list(alloc, by, keys.as_slice())?;
                Ok(Statement::Select(by.table(table), items, condition, keys, *held))
            }
            Statement::Next(sequence) => Ok(Statement::Next(by.sequence(sequence))),
            Statement::Insert(table, named, inputs) => {
                let named = renamed_named(alloc, by, named)?;
                let inputs = renamed_list(alloc, by, inputs.as_slice())?;
                Ok(Statement::Insert(by.table(table), named, inputs))
            }
            Statement::Update(table, settings, condition) => {
                let settings = renamed_settings(alloc, by, settings)?;
                let condition = renamed_condition(alloc, by, condition)?;
                Ok(Statement::Update(by.table(table), settings, condition))
            }
            Statement::Delete(table, condition) => {
                let condition = renamed_condition(alloc, by, condition)?;
                Ok(Statement::Delete(by.table(table), condition))
            }
            Statement::Commit => Ok(Statement::Commit),
            Statement::Rollback => Ok(Statement::Rollback),
            Statement::SetReadOnly => Ok(Statement::SetReadOnly),
            Statement::Savepoint(name) => Ok(Statement::Savepoint(name.copy()?)),
            Statement::RollbackTo(name) => Ok(Statement::RollbackTo(name.copy()?)),
        }
    }
}
