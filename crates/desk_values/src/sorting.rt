//! The ascending order of rows, by std's sort.

ghost use Rattle.std.specs.Prelude.{◌≡◌, IfOk};
ghost use Rattle.std.specs.List.Sorted.{IsPermutation};
ghost use Rattle.desk_values.specs.Sorting.{AreAscending, kind_then_value, place_of_kind, value_by_value};

use crate::list::List;
use crate::memory::{Copied, Memory};
use crate::value::{RowList, Value};
use std::cmp::Ordering;

/// The same rows, as often each, in ascending order: Null, numbers, texts, rows and draws in this order, within a kind
/// by number or by bytes, and rows value by value.
pub fn sort_rows(rows: &RowList) -> Result<RowList, Memory>
    ensures bag { IfOk result (λ sorted. IsPermutation rows.now sorted) }
    ensures ascending { IfOk result (λ sorted. AreAscending sorted) }
{
    let mut sorted = rows.copy()?.into_vec();
    sorted.sort_by(|a, b| value_by_value(a.as_slice(), b.as_slice()))?;
    Ok(List::from_vec(sorted))
}

/// The order of two rows: value by value, and one that is the beginning of another stands before it.
pub fn value_by_value(a: &[Value], b: &[Value]) -> Ordering
    ensures { result ≡ value_by_value a.now b.now }
{
    let shared = a.len().min(b.len());
    for i in 0..shared {
        let order = kind_then_value(&a[i], &b[i]);
        if order.is_ne() {
            return order;
        }
    }
    a.len().cmp(&b.len())
}

/// The order of two values: Null, numbers, texts, rows and draws in this order, within a kind by number or by bytes.
pub fn kind_then_value(a: &Value, b: &Value) -> Ordering
    ensures { result ≡ kind_then_value a.now b.now }
{
    match (a, b) {
        (Value::Int(a), Value::Int(b)) => a.cmp(b),
        (Value::Text(a), Value::Text(b)) => a.as_str().as_bytes().cmp(b.as_str().as_bytes()),
        (Value::Row(a), Value::Row(b)) => a.cmp(b),
        (Value::Draw(p, a), Value::Draw(q, b)) => p.cmp(q).then(a.cmp(b)),
        _ => place_of_kind(a).cmp(&place_of_kind(b)),
    }
}

/// The place of a value's kind.
fn place_of_kind(value: &Value) -> u8
    ensures { result ≡ place_of_kind value.now }
{
    match value {
        Value::Null => 0,
        Value::Int(_) => 1,
        Value::Text(_) => 2,
        Value::Row(_) => 3,
        Value::Draw(_, _) => 4,
    }
}
