//! Lists, and copies of them.

use crate::replies::rows_of;
use case_text::{first_word, number_of, small_number};
use desk_values::{
    Binds, Bytes, Copied, List, Memory, ReadErr, Reserved, Value, sort_rows, write_values,
};
use std::alloc::Global;

pub fn answer(alloc: Global, word: &str, text: &str, to: &mut Bytes) -> Result<(), ReadErr> {
    match word {
        "reserved" => append_reserved(alloc, text, to),
        "binds" => Ok(append_binds(alloc, small_number(text), to)?),
        "sort" => append_sorted(alloc, text, to),
        _ => Ok(append_joined(alloc, text, to)?),
    }
}

// Room for so many items, and the items.
fn append_reserved(alloc: Global, text: &str, to: &mut Bytes) -> Result<(), ReadErr> {
    let (room, items) = first_word(text);
    let mut list = Reserved::new(alloc);
    list.reserve(small_number(room))?;
    for item in items.split(' ') {
        list.push(number_of(item)?)?;
    }
    Ok(append_copies(alloc, list, to)?)
}

// The lists of a copy of a list, in which stand this one and a copy of it.
fn append_copies(alloc: Global, list: Reserved<u64>, to: &mut Bytes) -> Result<(), Memory> {
    let copy = list.copy()?;
    let mut lists = List::new(alloc);
    lists.push(list)?;
    lists.push(copy)?;
    for list in lists.copy()?.as_slice() {
        to.append(format!(in alloc; "{:?}", list.as_slice())?.as_bytes())?;
    }
    Ok(())
}

// Pushes so many numbers. The answer of each that is refused, and what a copy holds.
fn append_binds(alloc: Global, count: u32, to: &mut Bytes) -> Result<(), Memory> {
    let mut binds = Binds::new(alloc);
    for number in 0..count {
        if let Err(error) = binds.push(Value::Int(i64::from(number))) {
            to.append(format!(in alloc; "{error}, ")?.as_bytes())?;
        }
    }
    write_values(binds.copy()?.as_slice(), to)
}

// The rows in ascending order.
fn append_sorted(alloc: Global, text: &str, to: &mut Bytes) -> Result<(), ReadErr> {
    for row in sort_rows(&rows_of(alloc, text)?)?.as_slice() {
        write_values(row.as_slice(), to)?;
    }
    Ok(())
}

// A copy of the bytes of a word and those of the rest.
fn append_joined(alloc: Global, text: &str, to: &mut Bytes) -> Result<(), Memory> {
    let (front, rest) = first_word(text);
    let mut bytes = List::from_slice(alloc, front.as_bytes())?;
    bytes.append(rest.as_bytes())?;
    to.append(bytes.copy()?.as_slice())
}
