//! What a machine keeps of its server, and what it finds rows and holders by.

use crate::index::KeyIndex;
use hold_index::HoldIndex;
use row_versions::Versions;
use server_words::{Rows, Session};

/// The commits and the sessions of a server, and what is kept beside them to answer by.
pub struct Stores {
    /// The changes of each commit, in the order of the commits.
    pub commits: Vec<Rows>,
    /// The sessions by their numbers.
    pub sessions: Vec<Session>,
    /// The versions of the rows of each table.
    pub versions: Vec<Versions>,
    /// Where the keys of each table stand.
    pub indexes: Vec<KeyIndex>,
    /// Who holds what.
    pub holds: HoldIndex,
}

// Written out: a caller then drops it by one call, which keeps the caller's proof small.
impl Drop for Stores {
    fn drop(self) {
        let Stores {
            commits: _commits,
            sessions: _sessions,
            versions: _versions,
            indexes: _indexes,
            holds: _holds,
        } = self;
    }
}
