//! Laws of whole replays: what a run that answers every captured call comes to, and what its report names.
//!
//! Enters and leaves: nothing but what its laws speak of. `specs` says which ids a server may tell (`Told`), what is asked of the
//! answers of a history, when tables are the captured ones under a map of ids and which calls meet what they met (`End`), and
//! when a report names a call (`Reports`). It touches nothing.
#![tactic(auto)]

pub mod end_laws;
pub mod report_laws;
pub mod told_laws;
