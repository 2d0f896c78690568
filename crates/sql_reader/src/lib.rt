//! Statements of SQL as text and as trees.
//!
//! Enters: the text of a statement, or a tree. Leaves: the one tree that the text spells, or one text that
//! spells the tree. It touches nothing but memory.
#![tactic(auto)]

mod descent;
mod error;
mod laws;
mod part;
mod read;
mod scanner;
mod sentences;
mod token;
mod tree;
mod write;
mod writer;

pub use error::SqlErr;
pub use laws::{fewest_parentheses, one_statement, selects_ask, statement_as_spelled};
pub use read::read_statement;
pub use tree::{
    Agg, Aggs, CopiedTree, Expr, Exprs, Input, Inputs, Items, Key, Keys, Names, Op, Sets, Setting,
    Statement,
};
pub use write::write_statement;
