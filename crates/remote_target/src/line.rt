//! A session's line, when no lane has it.

use crate::spoken::Spoken;
use remote_link::Link;

/// A session's line.
#[derive(Drop)]
pub struct Line<L: Link + Drop> {
    /// The session.
    pub session: u32,
    /// The line, with what was said on it.
    pub spoken: Spoken<L>,
}
