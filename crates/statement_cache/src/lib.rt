//! Texts of SQL that were read and checked, kept so that each is read once.
//!
//! Enters: a schema, texts and their binds. Leaves: what each text is to a server of that schema, with the checked form. It touches
//! nothing but memory, of which it takes a limited amount, however many texts come.
#![tactic(auto)]

mod kept;
mod kinds;
mod statements;

ghost use Rattle.statement_cache.specs.Laws.{KindsDecide};

pub use kept::{Kept, read_kept};
pub use statements::Statements;

/// What a text is to a server depends on the kinds of its binds, and not on their values.
pub fn kinds_decide()
    ensures { KindsDecide }
{}
