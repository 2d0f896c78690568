//! The trees with names as the text has them, in lower case. Each list that was read has 1 to 16 members.

use desk_values::{List, Txt};
pub use sql_tree::{Agg, CopiedTree, Expr, Input, Items, Key, Op, Setting, Statement};

/// Columns to order by.
pub type Keys = List<Key>;

/// Names of columns.
pub type Names = List<Txt>;

/// The values of an INSERT.
pub type Inputs = List<Input>;

/// The new values of an UPDATE.
pub type Sets = List<Setting>;

/// Expressions in order.
pub type Exprs = List<Expr>;

/// Values over all rows, in order.
pub type Aggs = List<Agg>;
