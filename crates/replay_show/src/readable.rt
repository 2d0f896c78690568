//! Things that are told in a line, by the names of a schema.

ghost use Rattle.std.specs.Prelude.{◌≡◌, ◌++◌, ℕ, List as Sequence, codes, OnOk};
ghost use Rattle.std.specs.List.{flat_map};
ghost use Rattle.desk_schema.specs.Schema.{SchemaView};
ghost use Rattle.replay_show.specs.Values.{counted, listed};

use desk_schema::Schema;
use desk_values::fields::append_u64;
use desk_values::{Bytes, Memory};

/// What is told by the names of a schema.
pub(crate) trait Readable {
    /// How it is told.
    ghost readable: { SchemaView → Self → Sequence ℕ };

    /// Appends it.
    fn append_to(&self, schema: &Schema, to: &mut Bytes) -> Result<(), Memory>
        ensures { OnOk result (to.new ≡ to.old ++ readable schema.now self.now) };
}

/// Appends each, with a comma and a space between.
pub(crate) fn append_listed<T: Readable>(
    schema: &Schema,
    items: &[T],
    to: &mut Bytes,
) -> Result<(), Memory>
    ensures { OnOk result (to.new ≡ to.old ++ listed (T.readable schema.now) items.now) }
{
    match items {
        [first, others @ ..] => {
            first.append_to(schema, to)?;
            append_behind(schema, others, to)
        }
        [] => Ok(()),
    }
}

// Each with a comma and a space before it.
fn append_behind<T: Readable>(schema: &Schema, items: &[T], to: &mut Bytes) -> Result<(), Memory>
    ensures { OnOk result (to.new ≡ to.old ++ flat_map (λ item. codes ", " ++ T.readable schema.now item) items.now) }
{
    for item in items {
        to.append(b", ")?;
        item.append_to(schema, to)?;
    }
    Ok(())
}

/// Appends how many of what.
pub(crate) fn append_counted(n: u64, one: &str, many: &str, to: &mut Bytes) -> Result<(), Memory>
    ensures { OnOk result (to.new ≡ to.old ++ counted n one.now many.now) }
{
    append_u64(n, to)?;
    to.append(if n == 1 {
        one.as_bytes()
    } else {
        many.as_bytes()
    })
}
