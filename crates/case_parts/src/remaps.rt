//! A map of ids, driven through many pairs: `bench N` learns N pairs and looks each up.

mod bench;

use anyhow::anyhow;
use case_text::first_word;
use std::alloc::Global;

/// What a line is answered.
pub fn answer(alloc: Global, line: &str) -> Result<String, anyhow::Error> {
    let (word, rest) = first_word(line);
    match word {
        "bench" => bench::learnt(alloc, rest),
        _ => Err(anyhow!("no such line")),
    }
}
