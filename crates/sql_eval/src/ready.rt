use desk_values::List;
use sql_tree::{Agg, Expr, Input, Items, Key, Setting, Statement};

/// A statement with the numbers of tables, columns and sequences in place of their names, as [`check`](crate::check)
/// gives it. The numbers are places in the schema, from 0.
pub type Ready = Statement<u32>;

/// What a SELECT asks for.
pub type ReadyItems = Items<u32>;

/// A value over all rows. Its expression is one of numbers or Nulls for the sum, and also of texts for the others.
pub type ReadyAgg = Agg<u32>;

/// A value of an INSERT. It names nothing of a row.
pub type ReadyInput = Input<u32>;

/// A column to order by, of numbers or texts.
pub type ReadyKey = Key<u32>;

/// A new value of a column.
pub type ReadySetting = Setting<u32>;

/// An expression with the numbers of columns in place of their names. [`check`](crate::check) saw to it that its kinds
/// go together and that its binds are there.
pub type Checked = Expr<u32>;

/// Columns to order by.
pub type ReadyKeys = List<ReadyKey>;

/// Columns by number.
pub type Columns = List<u32>;

/// The values of an INSERT.
pub type ReadyInputs = List<ReadyInput>;

/// The new values of an UPDATE.
pub type ReadySets = List<ReadySetting>;

/// Expressions in order.
pub type CheckedList = List<Checked>;

/// Values over all rows, in order.
pub type ReadyAggs = List<ReadyAgg>;
