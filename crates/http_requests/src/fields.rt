//! What the fields of a head say.

ghost use Rattle.std.specs.Prelude.{◌≡◌, ◌≤◌, length, map, All, IfOk, true};
ghost use Rattle.std.specs.List.{list_any};
ghost use Rattle.std.specs.Str.{all_ascii_digits};
ghost use Rattle.std.specs.Str.Parse.{digits_value};
ghost use Rattle.httparse.specs.Spans.{IsHeaderWithin, header_bytes};
ghost use Rattle.http_requests.specs.Decisions.{has_name, is_length, says_close, told_length, values_of};
ghost use Rattle.http_requests.specs.Fields.{IsSole, length_in};
ghost use Rattle.http_requests.specs.Limits.{body_limit, digit_limit};

use crate::limits::{BODY_LIMIT, DIGIT_LIMIT};
use http::StatusCode;
use httparse::spans::HeaderSpan;

/// The values of a field that may stand once.
#[derive(Drop)]
pub enum Sole<'a> {
    /// It does not stand there.
    Absent,
    /// Its value.
    One(&'a [u8]),
    /// It stands more than once.
    Many,
}

// Whether a field has this name.
fn has_name(bytes: &[u8], field: &HeaderSpan, name: &[u8]) -> bool
    requires { IsHeaderWithin (length bytes.now) field.now }
    ensures { result ≡ has_name name.now (header_bytes bytes.now field.now) }
{
    field.name.of(bytes).eq_ignore_ascii_case(name)
}

/// Whether some field has this name.
pub(crate) fn has_field(bytes: &[u8], fields: &[HeaderSpan], name: &[u8]) -> bool
    requires { All (IsHeaderWithin (length bytes.now)) fields.now }
    ensures { result ≡ list_any (has_name name.now) (map (header_bytes bytes.now) fields.now) }
{
    for field in fields {
        if has_name(bytes, field, name) {
            return true;
        }
    }
    false
}

// Whether a field says that the connection is to be closed.
fn is_close(bytes: &[u8], field: &HeaderSpan) -> bool
    requires { IsHeaderWithin (length bytes.now) field.now }
    ensures { result ≡ says_close (header_bytes bytes.now field.now) }
{
    has_name(bytes, field, b"connection") && field.value.of(bytes).eq_ignore_ascii_case(b"close")
}

/// Whether some field says that the connection is to be closed.
pub(crate) fn says_close(bytes: &[u8], fields: &[HeaderSpan]) -> bool
    requires { All (IsHeaderWithin (length bytes.now)) fields.now }
    ensures { result ≡ list_any says_close (map (header_bytes bytes.now) fields.now) }
{
    for field in fields {
        if is_close(bytes, field) {
            return true;
        }
    }
    false
}

/// The value of the field of this name, whose spans are those of a head in the bytes.
pub fn sole_field<'a>(bytes: &'a [u8], fields: &[HeaderSpan], name: &[u8]) -> Sole<'a>
    requires { All (IsHeaderWithin (length bytes.now)) fields.now }
    ensures { IsSole result (values_of name.now (map (header_bytes bytes.now) fields.now)) }
{
    let mut sole: Option<&'a [u8]> = None;
    for field in fields {
        if has_name(bytes, field, name) {
            if sole.is_some() {
                return Sole::Many;
            }
            sole = Some(field.value.of(bytes));
        }
    }
    match sole {
        Some(value) => Sole::One(value),
        None => Sole::Absent,
    }
}

/// The length that a value tells, or the status that refuses it.
pub(crate) fn told_length(digits: &[u8]) -> Result<usize, StatusCode>
    ensures value { result ≡ told_length digits.now }
    ensures limit { IfOk result (λ length. length ≤ body_limit) }
{
    let Some(length) = length_of(digits) else {
        return Err(StatusCode::BAD_REQUEST);
    };
    if length > BODY_LIMIT {
        return Err(StatusCode::PAYLOAD_TOO_LARGE);
    }
    Ok(length as usize)
}

/// The length that digits tell, as few as a length may have; `None` where these bytes are none.
pub fn length_of(digits: &[u8]) -> Option<u64>
    ensures { result ≡ length_in digits.now }
{
    if is_length(digits) {
        Some(number(digits))
    } else {
        None
    }
}

// Whether these are digits, as many as a length may have.
fn is_length(digits: &[u8]) -> bool
    ensures { result ≡ is_length digits.now }
{
    !digits.is_empty() && digits.len() <= DIGIT_LIMIT && all_digits(digits)
}

fn all_digits(bytes: &[u8]) -> bool
    ensures { result ≡ all_ascii_digits bytes.now }
{
    for byte in bytes {
        if !byte.is_ascii_digit() {
            return false;
        }
    }
    true
}

// The number that digits tell.
#[tactic(auto, using(crate::proofs::Digits::number_bound))]
fn number(digits: &[u8]) -> u64
    requires all { all_ascii_digits digits.now ≡ true }
    requires few { length digits.now ≤ digit_limit }
    ensures { result ≡ digits_value 10 digits.now }
{
    let mut value = 0;
    for digit in digits {
        value = value * 10 + u64::from(*digit - b'0');
    }
    value
}
