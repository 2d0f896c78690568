//! Laws of the server that say its definitions a second time.
//!
//! Enters and leaves: nothing but what its laws speak of. A law is a call that does nothing, whose contract is the law. They say
//! what replacing each id by its pair leaves of expressions and totals (`row_laws`), that ids do not matter to what the server
//! answers (`renaming_laws`), that of the faults that apply the one of the lowest rank is told (`rank_laws`), what reads
//! savepoints (`savepoint_laws`), and what stays at level 1 and at version 1 (`level_laws`). It touches nothing.
#![tactic(auto)]

pub mod level_laws;
pub mod rank_laws;
pub mod renaming_laws;
pub mod row_laws;
pub mod savepoint_laws;
