//! The fields of a line.

use anyhow::anyhow;

/// What stands before the first space, and what behind it. Where there is no space, what is told to be missing is.
pub fn two<'a>(text: &'a str, missing: &'static str) -> Result<(&'a str, &'a str), anyhow::Error> {
    match text.split_once(' ') {
        Some(fields) => Ok(fields),
        None => Err(anyhow!("{missing}")),
    }
}
