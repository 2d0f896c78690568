//! What expressions are evaluated with.

ghost use Rattle.std.specs.Prelude.{◌≡◌, []};
ghost use Rattle.desk_values.specs.declared.value.Value.TheVariants.{Null as NoValue};

use desk_values::{Binds, Value, Values};
use std::alloc::Global;

/// What the expressions of a statement are evaluated with.
#[derive(Clone, Copy)]
pub struct Evaluation<'a> {
    /// Where values are made.
    pub alloc: Global,
    /// The level of the rules.
    pub level: u32,
    /// The values of the binds.
    pub binds: &'a Binds,
    /// No values: those of a row that is gone.
    pub no_values: &'a Values,
    /// Null, for a value that is not there.
    pub null: &'a Value,
    pub ghost empty: { no_values.now ≡ [] },
    pub ghost nothing: { null.now ≡ NoValue },
}
