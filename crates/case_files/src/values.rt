//! How values compare, which are ids, and the numbers and ranks of faults.

use case_text::{first_word, small_number};
use desk_values::{Fault, Memory, ReadErr, read_value, same_key, value_equal, value_order};
use std::alloc::Global;

pub fn answer(alloc: Global, word: &str, text: &str) -> Result<String, ReadErr> {
    match word {
        "compare" => compared(alloc, text),
        "id" => Ok(format!(in alloc; "{}", read_value(alloc, text.as_bytes())?.is_id())?),
        _ => Ok(fault(alloc, small_number(text))?),
    }
}

// At a level: the order of two values, whether they are equal, and whether they are the same key.
fn compared(alloc: Global, text: &str) -> Result<String, ReadErr> {
    let (level, values) = first_word(text);
    let (left, right) = first_word(values);
    let level = small_number(level);
    let left = read_value(alloc, left.as_bytes())?;
    let right = read_value(alloc, right.as_bytes())?;
    let order = value_order(level, &left, &right);
    let equal = value_equal(level, &left, &right);
    let same = same_key(level, &left, &right);
    Ok(format!(in alloc; "{order:?}, {equal:?}, {same}")?)
}

// The fault of the number: its name, its number and its rank.
fn fault(alloc: Global, number: u32) -> Result<String, Memory> {
    let Some(fault) = Fault::from_number(number) else {
        return Ok(String::from_str(alloc, "none")?);
    };
    Ok(format!(in alloc; "{fault:?} {}, rank {}", fault.number(), fault.rank())?)
}
