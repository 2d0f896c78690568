//! Captured calls: their orders, what they know, and the verdict on them.
//!
//! Enters: nothing. Leaves: the refusals; the definitions of calls by stamp (`Stamps`) and by session (`Sessions`), of the end
//! of a session's last call (`Moments`), of the ids that a client can know (`Known`), of the seven tests (`Tests`), of the verdict
//! and of what a replay is to know of each call (`Facts`); and laws: what the verdict lets through is legal. It touches nothing.
#![tactic(auto)]

pub mod laws;
mod refusal;
pub mod verdict_laws;

pub use refusal::Refusal;
