//! Laws of histories with one event more, and of the places of calls in their sessions.
//!
//! Enters and leaves: nothing but what its laws speak of. `specs` puts into words which event may come next (`Going`) and
//! calls that stand at their places (`Places`). It touches nothing.
#![tactic(auto)]

pub mod laws;
