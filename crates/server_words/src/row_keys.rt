//! The keys of rows.

ghost use Rattle.std.specs.Prelude.{◌≡◌};
ghost use Rattle.std.specs.Option.{option_copied, unwrap_or};
ghost use Rattle.desk_values.specs.declared.value.Value.TheVariants.{Null};
ghost use Rattle.server_words.specs.Rows.{row_key};

use desk_values::{Image, Value};

/// The first value of a row, if it has one.
pub fn first_value(image: &Image) -> Option<&Value>
    ensures { unwrap_or (option_copied result) Null ≡ row_key image.now }
{
    let Some(values) = &image.left else {
        return None;
    };
    match values.as_slice() {
        [key, ..] => Some(key),
        [] => None,
    }
}
