//! The register of runs in a database of SQLite.
//!
//! Enters: names, reports and accepted divergences. Leaves: what is kept. It touches the database that it is given or the file
//! that it opens, and nothing is claimed of what these hold.
#![tactic(auto)]

mod file;
mod keeper;
mod tables;

pub use file::{REGISTER_FILE, RegisterFile};
pub use keeper::SqliteKeeper;
