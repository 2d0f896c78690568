//! Captured and replayed replies.

use anyhow::anyhow;
use capture_format::read_reply;
use desk_values::{Outcome, Reply, Values};
use std::alloc::Global;

/// The captured and the replayed reply of `REPLY = REPLY`.
pub fn two_replies(alloc: Global, text: &str) -> Result<(Reply, Reply), anyhow::Error> {
    let (captured, replayed) = text.split_once(" = ").ok_or(anyhow!("no two replies"))?;
    let captured = read_reply(alloc, captured.as_bytes())?;
    let replayed = read_reply(alloc, replayed.as_bytes())?;
    Ok((captured, replayed))
}

/// A reply that gives these draws and this row.
pub fn giving(draws: Values, made: Option<u64>) -> Reply {
    Reply {
        outcome: Outcome::Count(1),
        draws,
        made,
    }
}
