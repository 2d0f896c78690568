//! How two values compare at a level of the rules.

ghost use Rattle.std.specs.Prelude.{◌≡◌, reverse};
ghost use Rattle.desk_values.specs.Comparison.{without_trailing_spaces, text_order, value_order, value_equal, same_key};

use crate::text::Txt;
use crate::value::Value;
use std::cmp::Ordering;

/// The bytes without the spaces at their end.
#[tactic(auto, unfolding(crate::specs::Comparison::without_trailing_spaces))]
pub fn without_trailing_spaces(mut bytes: &[u8]) -> &[u8]
    ensures { result.now ≡ without_trailing_spaces bytes.entry.now }
{
    while let [front @ .., b' '] = bytes {
        bytes = front;
    }
    bytes
}

/// The order of two texts: byte by byte, and at level 2 without the spaces at their ends.
#[tactic(auto, unfolding(crate::specs::Comparison::text_order))]
pub fn text_order(level: u32, a: &Txt, b: &Txt) -> Ordering
    ensures { result ≡ text_order level a.now b.now }
{
    let (a, b) = (a.as_str().as_bytes(), b.as_str().as_bytes());
    if level == 2 {
        without_trailing_spaces(a).cmp(without_trailing_spaces(b))
    } else {
        a.cmp(b)
    }
}

/// The order of two numbers or of two texts. Other pairs have none.
pub fn value_order(level: u32, a: &Value, b: &Value) -> Option<Ordering>
    ensures { result ≡ value_order level a.now b.now }
{
    match (a, b) {
        (Value::Int(a), Value::Int(b)) => Some(a.cmp(b)),
        (Value::Text(a), Value::Text(b)) => Some(text_order(level, a, b)),
        _ => None,
    }
}

/// Whether two values of one kind are equal. `None` where nobody knows, as beside a Null.
pub fn value_equal(level: u32, a: &Value, b: &Value) -> Option<bool>
    ensures { result ≡ value_equal level a.now b.now }
{
    match (a, b) {
        (Value::Row(a), Value::Row(b)) => Some(*a == *b),
        (Value::Draw(p, a), Value::Draw(q, b)) => Some(*p == *q && *a == *b),
        _ => value_order(level, a, b).map(|order| order.is_eq()),
    }
}

/// Whether the two are one key: they are known to be equal. So a Null is the key of nothing.
pub fn same_key(level: u32, a: &Value, b: &Value) -> bool
    ensures { result ≡ same_key level a.now b.now }
{
    value_equal(level, a, b).unwrap_or(false)
}
