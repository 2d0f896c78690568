//! Laws of ids: which the server gives out, and what the pairs of a replay are.
//!
//! Enters and leaves: nothing but what its laws speak of. `specs` says which ids a state has passed (`Counters`), what one reply
//! gives out (`Given`), where the ids of a replay come from (`Pairs`), and that its pairs are a one-to-one map however far it has
//! come (`Replays`). It touches nothing.
#![tactic(auto)]

pub mod given_laws;
pub mod pair_laws;
