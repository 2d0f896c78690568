//! Values from the one text that is written for them, in one pass and with no JSON value made. What is spelled otherwise is
//! no error here: it is read as a JSON value.

ghost use Rattle.std.specs.Prelude.{◌≡◌, false, [], ◌∷◌, ◌++◌, IfSome, map};
ghost use Rattle.std.specs.Fmt.{decimal};
ghost use Rattle.std.specs.List.{list_all, prefix_len};
ghost use Rattle.json.specs.Print.{quoted};
ghost use Rattle.serde_json.specs.Data.{Data, number};
ghost use Rattle.serde_json.specs.Find.{of_integer};
ghost use Rattle.serde_json.specs.View.{items_of};
ghost use Rattle.serde_json.specs.Written.{compact_text, items_text};
ghost use Rattle.call_json.specs.Forms.{list_data, value_data};
ghost use Rattle.call_json.specs.Inside.Spelled.{is_number_byte, is_plain, is_stop};

use desk_values::fields::{cut, read_i64, read_u32, read_u64};
use desk_values::{List, Txt, Value};
use std::alloc::Global;

/// What has one text that is written for it.
pub(crate) trait Spelled: Drop + Sized {
    /// Its JSON value.
    ghost meaning: { Self → Data };

    /// The one whose text stands at the front, and what stands behind it.
    fn front(alloc: Global, bytes: &[u8]) -> Option<(Self, &[u8])>
        ensures { IfSome result (λ front. bytes.now ≡ compact_text (meaning front.0) ++ front.1.now) };
}

/// What stands behind these bytes, where the others begin with them.
pub(crate) fn behind<'b>(bytes: &'b [u8], front: &[u8]) -> Option<&'b [u8]>
    ensures { IfSome result (λ rest. bytes.now ≡ front.now ++ rest.now) }
{
    let rest = bytes.strip_prefix(front)?;
    Some(rest)
}

/// The bytes are just these.
pub(crate) fn ends(bytes: &[u8], last: &[u8]) -> Option<()>
    ensures { IfSome result (λ _. bytes.now ≡ last.now) }
{
    if bytes == last { Some(()) } else { None }
}

// The byte is escaped in a string, or ends it.
fn is_stop(byte: u8) -> bool
    ensures { result ≡ is_stop byte }
{
    byte == b'"' || byte == b'\\' || byte < b' '
}

fn is_plain(byte: u8) -> bool
    ensures { result ≡ is_plain byte }
{
    !is_stop(byte)
}

fn are_plain(bytes: &[u8]) -> bool
    ensures { result ≡ list_all is_plain bytes.now }
{
    bytes.iter().all(|byte| is_plain(*byte))
}

// The text of this content of a string, where it needs no escapes.
fn plain_text(alloc: Global, content: &[u8]) -> Option<Txt>
    ensures { IfSome result (λ text. quoted text ≡ 34 ∷ (content.now ++ 34 ∷ [])) }
{
    let Ok(text) = Txt::from_bytes(alloc, content) else {
        return None;
    };
    if are_plain(content) { Some(text) } else { None }
}

/// The text at the front that needs no escapes, and what stands behind it.
pub(crate) fn text_front(alloc: Global, bytes: &[u8]) -> Option<(Txt, &[u8])>
    ensures { IfSome result (λ front. bytes.now ≡ quoted front.0 ++ front.1.now) }
{
    let opened = behind(bytes, b"\"")?;
    let (content, rest) = cut(opened, b'"')?;
    let text = plain_text(alloc, content)?;
    Some((text, rest))
}

fn is_number_byte(byte: u8) -> bool
    ensures { result ≡ is_number_byte byte }
{
    byte.is_ascii_digit() || byte == b'-'
}

fn number_len(bytes: &[u8]) -> usize
    ensures { result ≡ prefix_len is_number_byte bytes.now }
{
    bytes
        .iter()
        .take_while(|byte| is_number_byte(**byte))
        .count()
}

// The digits and the sign at the front, and the rest.
fn split_number(bytes: &[u8]) -> (&[u8], &[u8])
    ensures { bytes.now ≡ result.0.now ++ result.1.now }
{
    bytes.split_at(number_len(bytes))
}

// The whole number at the front, and what stands behind it.
#[tactic(auto, using(crate::proofs::Written::integer_text))]
fn integer_front(bytes: &[u8]) -> Option<(i64, &[u8])>
    ensures { IfSome result (λ front. bytes.now ≡ compact_text (number (of_integer front.0)) ++ front.1.now) }
{
    let (digits, rest) = split_number(bytes);
    let number = read_i64(digits)?;
    Some((number, rest))
}

/// The number at the front that is no less than 0, and what stands behind it.
pub(crate) fn count_front(bytes: &[u8]) -> Option<(u64, &[u8])>
    ensures { IfSome result (λ front. bytes.now ≡ decimal front.0 ++ front.1.now) }
{
    let (digits, rest) = split_number(bytes);
    let count = read_u64(digits)?;
    Some((count, rest))
}

/// The same, below 2^32.
pub(crate) fn small_front(bytes: &[u8]) -> Option<(u32, &[u8])>
    ensures { IfSome result (λ front. bytes.now ≡ decimal front.0 ++ front.1.now) }
{
    let (digits, rest) = split_number(bytes);
    let count = read_u32(digits)?;
    Some((count, rest))
}

// The value at the front, unless it is an id, and what stands behind it.
fn value_front(alloc: Global, bytes: &[u8]) -> Option<(Value, &[u8])>
    ensures { IfSome result (λ front. bytes.now ≡ compact_text (value_data front.0) ++ front.1.now) }
{
    if let Some(rest) = behind(bytes, b"null") {
        return Some((Value::Null, rest));
    }
    if let Some((number, rest)) = integer_front(bytes) {
        return Some((Value::Int(number), rest));
    }
    let (text, rest) = text_front(alloc, bytes)?;
    Some((Value::Text(text), rest))
}

impl Spelled for Value {
    ghost use Rattle.call_json.specs.Forms.{value_data as data_of_value};

    ghost meaning = { data_of_value };

    fn front(alloc: Global, bytes: &[u8]) -> Option<(Value, &[u8])> {
        value_front(alloc, bytes)
    }
}

impl Spelled for List<Value> {
    ghost use Rattle.call_json.specs.Forms.{values_data as data_of_values};

    ghost meaning = { data_of_values };

    fn front(alloc: Global, bytes: &[u8]) -> Option<(List<Value>, &[u8])> {
        list_front(alloc, bytes)
    }
}

// Items with a comma between, at least one, up to the bracket that closes them, and what stands behind it.
fn items_front<T: Spelled>(alloc: Global, bytes: &[u8]) -> Option<(List<T>, &[u8])>
    ensures { IfSome result (λ front. bytes.now ≡ items_text false (items_of (map T.meaning front.0)) ++ front.1.now) }
{
    let mut items = List::new(alloc);
    let mut rest = bytes;
    while let Some((item, after)) = T::front(alloc, rest) {
        let Ok(()) = items.push(item) else {
            return None;
        };
        if let Some(more) = behind(after, b"]") {
            return Some((items, more));
        }
        let next = behind(after, b",")?;
        rest = next;
    }
    None
}

/// The list at the front, and what stands behind it.
pub(crate) fn list_front<T: Spelled>(alloc: Global, bytes: &[u8]) -> Option<(List<T>, &[u8])>
    ensures { IfSome result (λ front. bytes.now ≡ compact_text (list_data T.meaning front.0) ++ front.1.now) }
{
    let opened = behind(bytes, b"[")?;
    if let Some(rest) = behind(opened, b"]") {
        return Some((List::new(alloc), rest));
    }
    let (items, rest) = items_front(alloc, opened)?;
    Some((items, rest))
}
