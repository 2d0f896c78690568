//! What a statement means for a row.
//!
//! Enters: a statement, a schema, binds, and the values of a row. Leaves: the statement with numbers for names,
//! values, truth, or the fault that the rules give. It touches nothing but memory.
//!
//! Values and truths are those of ISO/IEC 9075-2: arithmetic with Null is Null, a comparison with Null is unknown, and
//! conditions have three truth values. The order of faults is this program's own.
#![tactic(auto)]

mod checks;
mod error;
mod faults;
mod laws;
mod logic;
mod part_kind;
mod ready;
mod scope;
mod statement_kinds;
mod statement_names;
mod totals;
mod value;
mod value_ref;

pub use checks::check;
pub use error::{CheckErr, EvalErr};
pub use faults::Faults;
pub use laws::{
    faults_by_rank, faults_of_parts, null_operands, quotients_round, three_valued_logic,
    totals_of_rows, values_have_their_kind,
};
pub use logic::Truth;
pub use ready::{
    Checked, CheckedList, Columns, Ready, ReadyAgg, ReadyAggs, ReadyInput, ReadyInputs, ReadyItems,
    ReadyKey, ReadyKeys, ReadySets, ReadySetting,
};
pub use totals::total;
pub use value::{eval, truth_of};
