//! What may go from one thread to another: an engine, with the texts that it keeps.
//!
//! Enters and leaves: nothing. It touches nothing. That trees which hold themselves may go there is shown here once (`Crossings.antt`),
//! for the proofs of the crates that hand engines to threads.
#![tactic(auto)]
