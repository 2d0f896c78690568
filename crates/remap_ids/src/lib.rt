//! What stands in a replay for what a capture had: services by a remap file, ids by a map that is learnt from replies.
//!
//! Enters: the bytes of a remap file, a start, and pairs of a captured and a replayed reply. Leaves: the images of ids, the
//! call that is sent in the place of a captured one, and the text of what was learnt. It touches nothing but memory.
//!
//! Captured connections are remapped before a replay as in Oracle's Database Testing Guide; the file and the map of ids
//! are this repository's own.
#![tactic(auto)]

mod id_map;
mod learning;
mod low_ids;
mod pairs;
mod remap;
mod start_ids;

pub use id_map::IdMap;
pub use id_pairs::Id;
pub use low_ids::{UNKNOWN_FROM, has_low_ids};
pub use remap::{Remap, RemapErr};
