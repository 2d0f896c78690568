//! Copies of trees. A chain of operators leans to the left, so a copy may go some 500 levels deep, with a small
//! frame each.

ghost use Rattle.std.specs.Prelude.{◌≡◌, IfOk, map};
ghost use Rattle.sql_tree.specs.Plain.{condition_of};

use crate::tree::{Agg, Expr, Input, Items, Key, Setting, Statement};
use desk_values::{Copied, List, Memory};

/// A tree that can be copied where memory allows. Trees are equal where their plain trees are, wherever they lie in
/// memory.
pub trait CopiedTree: Drop + Sized {
    /// The plain trees.
    ghost Plain: { Type 0 };

    /// The plain tree.
    ghost view: { Self → Plain };

    /// An equal tree. `Memory` where memory runs out.
    fn copy(&self) -> Result<Self, Memory>
        ensures { IfOk result (λ copy. view copy ≡ view self.now) };
}

impl<N: Copied> CopiedTree for Expr<N> {
    ghost use Rattle.sql_tree.specs.Plain.{Term as Plainly, term_of as plain};

    ghost Plain = { Plainly N };

    ghost view = { plain };

    fn copy(&self) -> Result<Expr<N>, Memory> {
        match self {
            Expr::Null => Ok(Expr::Null),
            Expr::Int(number) => Ok(Expr::Int(*number)),
            Expr::Text(text) => Ok(Expr::Text(text.copy()?)),
            Expr::Bind(number) => Ok(Expr::Bind(*number)),
            Expr::Column(name) => Ok(Expr::Column(name.copy()?)),
            Expr::RowId => Ok(Expr::RowId),
            Expr::Neg(of) => {
                let copy = of.copy()?;
                Ok(Expr::Neg(Box::new(*Box::allocator(of), copy)?))
            }
            Expr::Not(of) => {
                let copy = of.copy()?;
                Ok(Expr::Not(Box::new(*Box::allocator(of), copy)?))
            }
            Expr::Bin(op, left, right) => {
                let alloc = *Box::allocator(left);
                let left = left.copy()?;
                let right = right.copy()?;
                Ok(Expr::Bin(*op, Box::new(alloc, left)?, Box::new(alloc, right)?))
            }
            Expr::IsNull(of) => {
                let copy = of.copy()?;
                Ok(Expr::IsNull(Box::new(*Box::allocator(of), copy)?))
            }
            Expr::NotNull(of) => {
                let copy = of.copy()?;
                Ok(Expr::NotNull(Box::new(*Box::allocator(of), copy)?))
            }
        }
    }
}

impl<N: Copied> CopiedTree for Agg<N> {
    ghost use Rattle.sql_tree.specs.Plain.{Total as Plainly, total_of as plain};

    ghost Plain = { Plainly N };

    ghost view = { plain };

    fn copy(&self) -> Result<Agg<N>, Memory> {
        match self {
            Agg::Count => Ok(Agg::Count),
            Agg::Sum(of) => Ok(Agg::Sum(of.copy()?)),
            Agg::Min(of) => Ok(Agg::Min(of.copy()?)),
            Agg::Max(of) => Ok(Agg::Max(of.copy()?)),
        }
    }
}

impl<N: Copied> CopiedTree for Input<N> {
    ghost use Rattle.sql_tree.specs.Plain.{Entry as Plainly, entry_of as plain};

    ghost Plain = { Plainly N };

    ghost view = { plain };

    fn copy(&self) -> Result<Input<N>, Memory> {
        match self {
            Input::Expr(value) => Ok(Input::Expr(value.copy()?)),
            Input::Next(sequence) => Ok(Input::Next(sequence.copy()?)),
        }
    }
}

impl<N: Copied> CopiedTree for Setting<N> {
    ghost use Rattle.sql_tree.specs.Plain.{Change as Plainly, change_of as plain};

    ghost Plain = { Plainly N };

    ghost view = { plain };

    fn copy(&self) -> Result<Setting<N>, Memory> {
        let column = self.column.copy()?;
        let to = self.to.copy()?;
        Ok(Setting { column, to })
    }
}

impl<N: Copied> Copied for Key<N> {
    fn copy(&self) -> Result<Key<N>, Memory> {
        let column = self.column.copy()?;
        Ok(Key {
            column,
            desc: self.desc,
        })
    }
}

impl<T: CopiedTree> CopiedTree for List<T> {
    ghost use Rattle.std.specs.Prelude.{List as Sequence, map as each};

    ghost Plain = { Sequence T.Plain };

    ghost view = { each T.view };

    fn copy(&self) -> Result<List<T>, Memory> {
        let mut copies = List::new(self.allocator());
        for tree in self.as_slice() {
            copies.push(tree.copy()?)?;
        }
        Ok(copies)
    }
}

fn copied_condition<N: Copied>(condition: &Option<Expr<N>>) -> Result<Option<Expr<N>>, Memory>
    ensures { IfOk result (λ copy. condition_of copy ≡ condition_of condition.now) }
{
    match condition {
        Some(expr) => Ok(Some(expr.copy()?)),
        None => Ok(None),
    }
}

impl<N: Copied> CopiedTree for Items<N> {
    ghost use Rattle.sql_tree.specs.Plain.{Asked as Plainly, asked_of as plain};

    ghost Plain = { Plainly N };

    ghost view = { plain };

    fn copy(&self) -> Result<Items<N>, Memory> {
        match self {
            Items::All => Ok(Items::All),
            Items::Exprs(exprs) => Ok(Items::Exprs(exprs.copy()?)),
            Items::Aggs(aggs) => Ok(Items::Aggs(aggs.copy()?)),
        }
    }
}

impl<N: Copied> CopiedTree for Statement<N> {
    ghost use Rattle.sql_tree.specs.Plain.{Plan as Plainly, plan_of as plain};

    ghost Plain = { Plainly N };

    ghost view = { plain };

    fn copy(&self) -> Result<Statement<N>, Memory> {
        match self {
            Statement::Select(table, items, condition, keys, held) => {
                let table = table.copy()?;
                let items = items.copy()?;
                let condition = copied_condition(condition)?;
                let keys = keys.copy()?;
                Ok(Statement::Select(table, items, condition, keys, *held))
            }
            Statement::Next(sequence) => Ok(Statement::Next(sequence.copy()?)),
            Statement::Insert(table, None, inputs) => {
                let table = table.copy()?;
                let inputs = inputs.copy()?;
                Ok(Statement::Insert(table, None, inputs))
            }
            Statement::Insert(table, Some(columns), inputs) => {
                let table = table.copy()?;
                let columns = columns.copy()?;
                let inputs = inputs.copy()?;
                Ok(Statement::Insert(table, Some(columns), inputs))
            }
            Statement::Update(table, settings, condition) => {
                let table = table.copy()?;
                let settings = settings.copy()?;
                let condition = copied_condition(condition)?;
                Ok(Statement::Update(table, settings, condition))
            }
            Statement::Delete(table, condition) => {
                let table = table.copy()?;
                let condition = copied_condition(condition)?;
                Ok(Statement::Delete(table, condition))
            }
            Statement::Commit => Ok(Statement::Commit),
            Statement::Rollback => Ok(Statement::Rollback),
            Statement::SetReadOnly => Ok(Statement::SetReadOnly),
            Statement::Savepoint(name) => Ok(Statement::Savepoint(name.copy()?)),
            Statement::RollbackTo(name) => Ok(Statement::RollbackTo(name.copy()?)),
        }
    }
}
