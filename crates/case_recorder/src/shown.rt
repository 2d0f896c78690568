//! How answers are told.

use anyhow::anyhow;
use capture_format::write_reply;
use capture_recorder::{CallErr, Said};
use desk_values::{Bytes, Reply};
use std::alloc::Global;

/// Bytes as a text.
pub fn text(alloc: Global, bytes: &Bytes) -> Result<String, anyhow::Error> {
    let text = str::from_utf8(bytes.as_slice())?;
    Ok(String::from_str(alloc, text)?)
}

/// A reply.
pub fn reply(alloc: Global, reply: &Reply) -> Result<String, anyhow::Error> {
    if !reply.good() {
        return Err(anyhow!("a reply without a text"));
    }
    text(alloc, &write_reply(alloc, reply)?)
}

/// Why a call was turned away.
pub fn refusal(alloc: Global, refusal: CallErr) -> Result<String, anyhow::Error> {
    match refusal {
        CallErr::Stranger => Ok(String::from_str(alloc, "stranger")?),
        CallErr::Full => Ok(String::from_str(alloc, "full")?),
        CallErr::Memory => Err(anyhow!("out of memory")),
    }
}

/// A reply that was said, `-` where there is none.
pub fn said(alloc: Global, said: &Option<Said>) -> Result<String, anyhow::Error> {
    match said {
        Some(said) => reply(alloc, &said.reply),
        None => Ok(String::from_str(alloc, "-")?),
    }
}
