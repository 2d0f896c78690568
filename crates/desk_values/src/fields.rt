//! Fields of a text: cutting bytes at a separator, and numbers and texts that are a whole field.

ghost use Rattle.std.specs.Prelude.{◌≡◌, ℕ, ◌<◌, ◌^◌, ℤ, List, ◌++◌, ◌∷◌, Some, IfSome, IfNone, IfOk, OnOk, OnErr, FitsSigned};
ghost use Rattle.std.specs.Int.{w64};
ghost use Rattle.std.specs.Option.{option_map};
ghost use Rattle.std.specs.Fmt.{decimal, signed_decimal};
ghost use Rattle.desk_values.specs.Fields.{Lacks, cut_at};
ghost use Rattle.desk_values.specs.Good.{IsTxt};
ghost use Rattle.desk_values.specs.Text.{txt_text};
ghost use Rattle.desk_values.specs.Reading.{Reads, number_of, number_below, negative, integer_of, txt_of};
ghost use Rattle.desk_values.specs.Inside.{is_loose, number_after};

use crate::escape::{push_text, read_escaped};
use crate::memory::Memory;
use crate::read_err::ReadErr;
use crate::text::Txt;
use crate::value::Bytes;
use itoa::Buffer;
use memchr::memchr;
use std::alloc::Global;

/// What stands before the first `byte`, and what stands behind it. `None` where it does not stand there.
pub fn cut(bytes: &[u8], byte: u8) -> Option<(&[u8], &[u8])>
    ensures value { option_map (λ parts. (parts.0.now, parts.1.now)) result ≡ cut_at byte bytes.now }
    ensures found { IfSome result (λ parts. (bytes.now ≡ parts.0.now ++ byte ∷ parts.1.now) × Lacks byte parts.0.now) }
    ensures none { IfNone result (Lacks byte bytes.now) }
{
    match memchr(byte, bytes) {
        Some(place) => Some((&bytes[..place], &bytes[place + 1..])),
        None => None,
    }
}

/// The same, byte by byte: for a byte that stands near, as behind a number.
pub fn cut_near(bytes: &[u8], byte: u8) -> Option<(&[u8], &[u8])>
    ensures value { option_map (λ parts. (parts.0.now, parts.1.now)) result ≡ cut_at byte bytes.now }
    ensures found { IfSome result (λ parts. (bytes.now ≡ parts.0.now ++ byte ∷ parts.1.now) × Lacks byte parts.0.now) }
    ensures none { IfNone result (Lacks byte bytes.now) }
{
    for (i, other) in bytes.iter().enumerate() {
        if *other == byte {
            return Some((&bytes[..i], &bytes[i + 1..]));
        }
    }
    None
}

/// The number below 2^64 that all the bytes spell in decimal digits. `None` where they spell none: no byte or another
/// one than a digit, a sign or a space too, a leading zero before more, or a number from 2^64 on.
pub fn read_u64(bytes: &[u8]) -> Option<u64>
    ensures value { result ≡ number_of bytes.now }
    ensures some { IfSome result (λ n. bytes.now ≡ decimal n) }
    ensures only { (n : ℕ) → n < 2 ^ 64 → bytes.now ≡ decimal n → result ≡ Some n }
{
    number(bytes)
}

/// The same, below 2^32: `None` from there on too.
pub fn read_u32(bytes: &[u8]) -> Option<u32>
    ensures value { result ≡ number_below (2 ^ 32) bytes.now }
    ensures some { IfSome result (λ n. bytes.now ≡ decimal n) }
    ensures only { (n : ℕ) → n < 2 ^ 32 → bytes.now ≡ decimal n → result ≡ Some n }
{
    small_number(bytes)
}

/// The number with a sign that all the bytes spell: a number as [`read_u64`] has it below 2^63, or `-` and one from 1 to
/// 2^63. `None` where they spell none, as `-0` and `+1`.
pub fn read_i64(bytes: &[u8]) -> Option<i64>
    ensures value { result ≡ integer_of bytes.now }
    ensures some { IfSome result (λ n. bytes.now ≡ signed_decimal n) }
    ensures only { (n : ℤ) → FitsSigned w64 n → bytes.now ≡ signed_decimal n → result ≡ Some n }
{
    integer(bytes)
}

fn number(bytes: &[u8]) -> Option<u64>
    ensures { result ≡ number_of bytes.now }
{
    if is_loose(bytes) {
        return None;
    }
    digits(bytes)
}

// No byte, or a zero before more: no number is spelled so.
fn is_loose(bytes: &[u8]) -> bool
    ensures { result ≡ is_loose bytes.now }
{
    match bytes {
        [first, rest @ ..] => *first == b'0' && !rest.is_empty(),
        [] => true,
    }
}

// The number below 2^64 of these digits. `None` where there is another byte, or where it is too large.
fn digits(bytes: &[u8]) -> Option<u64>
    ensures { result ≡ number_after 0 bytes.now }
{
    let mut number: u128 = 0;
    for digit in bytes {
        if !digit.is_ascii_digit() {
            return None;
        }
        let next = number * 10 + u128::from(*digit - b'0');
        if next > u64::MAX as u128 {
            return None;
        }
        number = next;
    }
    Some(number as u64)
}

#[tactic(auto, unfolding(crate::specs::Reading::number_below))]
fn small_number(bytes: &[u8]) -> Option<u32>
    ensures { result ≡ number_below (2 ^ 32) bytes.now }
{
    u32::try_from(number(bytes)?).ok()
}

#[tactic(auto, unfolding(crate::specs::Reading::integer_of))]
fn integer(bytes: &[u8]) -> Option<i64>
    ensures { result ≡ integer_of bytes.now }
{
    match bytes {
        [b'-', digits @ ..] => negative(number(digits)?),
        _ => i64::try_from(number(bytes)?).ok(),
    }
}

// The number below zero of this amount.
fn negative(amount: u64) -> Option<i64>
    ensures { result ≡ negative amount }
{
    let below = i64::try_from(amount.checked_sub(1)?).ok()?;
    Some(-1 - below)
}

/// The text that all the bytes spell: `t`, and its bytes, where each byte that is no letter, digit, `_`,
/// `-` or `.` is `%` and two upper-case hexadecimal digits. `Bad` where they spell none: without the `t`, with another
/// escape than a byte has, or with bytes that are no UTF-8 (RFC 3629) or over 1,000. `Memory` where memory is wanting.
pub fn read_text(alloc: Global, bytes: &[u8]) -> Result<Txt, ReadErr>
    ensures ok { IfOk result (λ text. IsTxt text × (bytes.now ≡ txt_text text)) }
    ensures only { (text : List ℕ) → IsTxt text → bytes.now ≡ txt_text text → Reads result (Some text) }
    ensures value { Reads result (txt_of bytes.now) }
{
    text(alloc, bytes)
}

#[tactic(auto, unfolding(crate::specs::Reading::txt_of))]
fn text(alloc: Global, bytes: &[u8]) -> Result<Txt, ReadErr>
    ensures { Reads result (txt_of bytes.now) }
{
    match bytes {
        [b't', escaped @ ..] => read_escaped(alloc, escaped),
        _ => Err(ReadErr::Bad),
    }
}

/// Appends a number. An `Err` changes nothing.
pub fn append_u64(number: u64, to: &mut Bytes) -> Result<(), Memory>
    ensures ok { OnOk result (to.new ≡ to.old ++ decimal number) }
    ensures err { OnErr result (to.new ≡ to.old) }
{
    to.append(Buffer::new().format(number).as_bytes())
}

/// Appends a number with a sign. An `Err` changes nothing.
pub fn append_i64(number: i64, to: &mut Bytes) -> Result<(), Memory>
    ensures ok { OnOk result (to.new ≡ to.old ++ signed_decimal number) }
    ensures err { OnErr result (to.new ≡ to.old) }
{
    to.append(Buffer::new().format(number).as_bytes())
}

/// Appends a text as [`read_text`] reads it. An `Err` changes nothing.
pub fn append_text(text: &Txt, to: &mut Bytes) -> Result<(), Memory>
    ensures ok { OnOk result (to.new ≡ to.old ++ txt_text text.now) }
    ensures err { OnErr result (to.new ≡ to.old) }
{
    let len = to.len();
    let written = push_text(text, to);
    to.cut_back_on_err(len, written)
}
