//! The text of a value is the text of one value alone.

ghost use Rattle.std.specs.Prelude.{◌≡◌};
ghost use Rattle.desk_values.specs.declared.value.Value.{Value};
ghost use Rattle.desk_values.specs.Good.{IsValue};
ghost use Rattle.desk_values.specs.Text.{value_text};

/// A text is the text of at most one value.
pub fn one_value_text()
    ensures { (a b : Value) → IsValue a → IsValue b → value_text a ≡ value_text b → a ≡ b }
{}
