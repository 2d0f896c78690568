//! Trees of statements, for any kind of name: as a text has them, or numbers of a schema.
//!
//! Enters: a tree. Leaves: a copy, the tree with other names, or whether a part passes a test. It touches nothing but
//! memory.
#![tactic(auto)]

mod copy;
mod leaves;
mod rename;
mod tree;

pub use copy::CopiedTree;
pub use leaves::LeafTest;
pub use rename::Renames;
pub use tree::{Agg, Expr, Input, Items, Key, Op, Setting, Statement};
