//! Texts with every byte escaped that is no letter, digit, `_`, `-` or `.`.

ghost use Rattle.std.specs.Prelude.{◌≡◌, ◌<◌, ◌++◌, IfSome, IfOk, OnOk, OnErr};
ghost use Rattle.std.specs.Option.{option_map};
ghost use Rattle.std.specs.Cow.{cow_str_bytes};
ghost use Rattle.desk_values.specs.Inside.{IsKept, Unescapes, hex_value, hex_byte, behind_high, behind_percent, behind_first, first_byte};
ghost use Rattle.desk_values.specs.Text.{is_plain, escaped, txt_text};
ghost use Rattle.desk_values.specs.Reading.{Reads, txt_in, escaped_of};

use crate::list::List;
use crate::memory::Memory;
use crate::read_err::ReadErr;
use crate::text::{TEXT_LIMIT, Txt, TxtErr};
use crate::value::Bytes;
use percent_encoding::{AsciiSet, NON_ALPHANUMERIC, ascii_set, percent_encode};
use std::alloc::{AllocError, Global};
use std::borrow::CowStr;

/// The ASCII bytes that are escaped: all but letters, digits, `_`, `-` and `.`.
const ESCAPES: AsciiSet = ascii_set!(NON_ALPHANUMERIC.remove(b'_').remove(b'-').remove(b'.'));

// The bytes with each one escaped that does not stand for itself.
fn escaped(alloc: Global, bytes: &[u8]) -> Result<CowStr<'_>, AllocError>
    ensures { IfOk result (λ text. cow_str_bytes text ≡ escaped bytes.now) }
{
    percent_encode(bytes, ESCAPES).into_cow(alloc)
}

// The byte stands for itself in a text.
fn is_plain(byte: u8) -> bool
    ensures { result ≡ is_plain byte }
{
    byte.is_ascii_uppercase()
        || byte.is_ascii_lowercase()
        || byte.is_ascii_digit()
        || byte == b'_'
        || byte == b'-'
        || byte == b'.'
}

// What an upper-case hexadecimal digit stands for.
fn hex_value(digit: u8) -> Option<u8>
    ensures value { result ≡ hex_value digit }
    ensures limit { IfSome result (λ value. value < 16) }
{
    if digit < b'0' {
        None
    } else if digit <= b'9' {
        Some(digit - b'0')
    } else if digit < b'A' {
        None
    } else if digit <= b'F' {
        Some(digit - b'A' + 10)
    } else {
        None
    }
}

// The byte that two digits stand for, where it does not stand for itself.
fn hex_byte(high: u8, low: u8) -> Option<u8>
    ensures { result ≡ hex_byte high low }
{
    let sixteens = hex_value(high)?;
    let ones = hex_value(low)?;
    let byte = 16 * sixteens + ones;
    if is_plain(byte) { None } else { Some(byte) }
}

// The byte of the two digits at the front, and what stands behind them.
fn behind_percent(bytes: &[u8]) -> Option<(u8, &[u8])>
    ensures { option_map (λ front. (front.0, front.1.now)) result ≡ behind_percent bytes.now }
{
    match bytes {
        [high, rest @ ..] => behind_high(*high, rest),
        [] => None,
    }
}

fn behind_high(high: u8, bytes: &[u8]) -> Option<(u8, &[u8])>
    ensures { option_map (λ front. (front.0, front.1.now)) result ≡ behind_high high bytes.now }
{
    match bytes {
        [low, rest @ ..] => Some((hex_byte(high, *low)?, rest)),
        [] => None,
    }
}

fn behind_first(first: u8, rest: &[u8]) -> Option<(u8, &[u8])>
    ensures { option_map (λ front. (front.0, front.1.now)) result ≡ behind_first first rest.now }
{
    if is_plain(first) {
        Some((first, rest))
    } else if first == b'%' {
        behind_percent(rest)
    } else {
        None
    }
}

// The byte that an escaped text begins with, and what stands behind it.
fn first_byte(bytes: &[u8]) -> Option<(u8, &[u8])>
    ensures { option_map (λ front. (front.0, front.1.now)) result ≡ first_byte bytes.now }
{
    match bytes {
        [first, rest @ ..] => behind_first(*first, rest),
        [] => None,
    }
}

// What the escapes stand for. `Bad` where the bytes are no text with just the escapes that it needs.
fn unescaped(alloc: Global, bytes: &[u8]) -> Result<Bytes, ReadErr>
    ensures { Unescapes result bytes.now }
{
    let mut text = List::with_capacity(alloc, bytes.len())?;
    let mut rest = bytes;
    while let Some((byte, after)) = first_byte(rest) {
        text.push(byte)?;
        rest = after;
    }
    if rest.is_empty() {
        Ok(text)
    } else {
        Err(ReadErr::Bad)
    }
}

// The text of these bytes.
#[tactic(auto, unfolding(crate::specs::Reading::txt_in))]
fn txt(alloc: Global, bytes: &[u8]) -> Result<Txt, ReadErr>
    ensures { Reads result (txt_in bytes.now) }
{
    match Txt::from_bytes(alloc, bytes) {
        Ok(text) => Ok(text),
        Err(TxtErr::Memory) => Err(ReadErr::Memory),
        Err(TxtErr::TooLong) => Err(ReadErr::Bad),
        Err(TxtErr::NotUtf8) => Err(ReadErr::Bad),
    }
}

/// The text that all the bytes spell: each byte that is no letter, digit, `_`, `-` or `.` as `%` and two upper-case
/// hexadecimal digits, and each other one as itself. `Bad` where they spell none: an escape of another form or of a byte
/// that stands for itself, bytes that are no UTF-8 (RFC 3629), or over 1,000 of them. `Memory` where memory is wanting.
pub fn read_escaped(alloc: Global, bytes: &[u8]) -> Result<Txt, ReadErr>
    ensures { Reads result (escaped_of bytes.now) }
{
    // Each byte takes at most three, so what is longer is no text, and takes no memory.
    if bytes.len() > 3 * TEXT_LIMIT {
        return Err(ReadErr::Bad);
    }
    let text = unescaped(alloc, bytes)?;
    txt(alloc, text.as_slice())
}

/// Appends `t` and the text. After an `Err` the bytes begin as before.
#[tactic(auto, using(crate::proofs::Keeping::kept_further))]
pub fn push_text(text: &Txt, to: &mut Bytes) -> Result<(), Memory>
    ensures ok { OnOk result (to.new ≡ to.old ++ txt_text text.now) }
    ensures kept { OnErr result (IsKept to.old to.new) }
{
    let escaped = escaped(text.allocator(), text.as_str().as_bytes())?;
    to.push(b't')?;
    to.append(escaped.as_bytes())
}
