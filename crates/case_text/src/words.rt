//! What the words of a line say.

use desk_values::fields::read_u64;
use desk_values::{Bytes, List, Memory, ReadErr, Stamps, Txt};
use std::alloc::Global;

/// The bytes of a text, in which `\NUMBER;` is the byte of that number and `\COUNT*TEXT;` the text so many times. They
/// are cut short where a `\` has no `;` behind it.
pub fn unescaped(alloc: Global, text: &str) -> Result<Bytes, Memory> {
    let mut bytes = List::new(alloc);
    let mut parts = text.split('\\');
    bytes.append(parts.next().unwrap_or("").as_bytes())?;
    for part in parts {
        let Some((code, rest)) = part.split_once(';') else {
            return Ok(bytes);
        };
        append_code(code, &mut bytes)?;
        bytes.append(rest.as_bytes())?;
    }
    Ok(bytes)
}

fn append_code(code: &str, to: &mut Bytes) -> Result<(), Memory> {
    match code.split_once('*') {
        Some((count, text)) => append_times(count.parse().unwrap_or(0), text, to),
        None => to.push(code.parse().unwrap_or(0)),
    }
}

fn append_times(count: u32, text: &str, to: &mut Bytes) -> Result<(), Memory> {
    for _ in 0..count {
        to.append(text.as_bytes())?;
    }
    Ok(())
}

/// The first word, and what stands behind the space after it.
pub fn first_word(text: &str) -> (&str, &str) {
    text.split_once(' ').unwrap_or((text, ""))
}

/// A small number, or 0.
pub fn small_number(text: &str) -> u32 {
    text.parse().unwrap_or(0)
}

/// The numbers between the commas, or none where the text is `-`.
pub fn stamps_of(alloc: Global, text: &str) -> Result<Stamps, Memory> {
    let mut stamps = List::new(alloc);
    for number in text.split(',') {
        if number != "-" {
            stamps.push(small_number(number))?;
        }
    }
    Ok(stamps)
}

/// The number that the text is.
pub fn number_of(text: &str) -> Result<u64, ReadErr> {
    read_u64(text.as_bytes()).ok_or(ReadErr::Bad)
}

/// The text.
pub fn txt(alloc: Global, text: &str) -> Result<Txt, ReadErr> {
    Txt::from_bytes(alloc, text.as_bytes()).map_err(|_| ReadErr::Bad)
}
