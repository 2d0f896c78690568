//! Which ids were given.

ghost use Rattle.std.specs.Prelude.{◌≡◌, ◌&&◌};
ghost use Rattle.std.specs.List.{list_any};
ghost use Rattle.desk_values.specs.declared.value.Value.TheVariants.{Row as RowId};
ghost use Rattle.desk_values.specs.Comparison.{same_key};
ghost use Rattle.desk_values.specs.Ids.{ids_of_image, is_id};
ghost use Rattle.server_words.specs.State.{is_between, stands_in};

use desk_values::{Image, Value, same_key};

/// Whether the id stands in the rows: as a row's number or among its values.
pub fn stands_in(rows: &[Image], id: &Value) -> bool
    ensures { result ≡ stands_in rows.now id.now }
{
    rows.iter().any(|image| has_id(image, id))
}

#[tactic(auto, using(crate::proofs::Filters::filters))]
fn has_id(image: &Image, id: &Value) -> bool
    ensures { result ≡ list_any (same_key 1 id.now) (ids_of_image image.now) }
{
    is_row(id, image.row)
        || match &image.left {
            Some(values) => stands_among(values.as_slice(), id),
            None => false,
        }
}

fn is_row(id: &Value, row: u64) -> bool
    ensures { result ≡ same_key 1 id.now (RowId row) }
{
    matches!(id, Value::Row(number) if *number == row)
}

fn stands_among(values: &[Value], id: &Value) -> bool
    ensures { result ≡ list_any (λ value. is_id value && same_key 1 id.now value) values.now }
{
    values
        .iter()
        .any(|value| value.is_id() && same_key(1, id, value))
}

/// Whether a number is from the first on and below the second.
pub fn is_between(first: Option<u64>, end: Option<u64>, number: u64) -> bool
    ensures { result ≡ is_between first end number }
{
    match (first, end) {
        (Some(first), Some(end)) => first <= number && number < end,
        _ => false,
    }
}
