//! Values, rows and images.

ghost use Rattle.std.specs.Prelude.{◌≡◌, ◌++◌, OnOk};
ghost use Rattle.replay_show.specs.Values.{image_shown, left_shown, row_shown, sequence_shown, table_shown, value_shown};

use crate::readable::{Readable, append_listed};
use crate::texts::append_quoted;
use desk_schema::Schema;
use desk_values::fields::{append_i64, append_u64};
use desk_values::{Bytes, Image, Memory, Value, Values};

impl Readable for Value {
    ghost readable = { value_shown };

    fn append_to(&self, schema: &Schema, to: &mut Bytes) -> Result<(), Memory> {
        match self {
            Value::Null => to.append(b"null"),
            Value::Int(number) => append_i64(*number, to),
            Value::Text(text) => append_quoted(text, to),
            Value::Row(row) => {
                to.append(b"row ")?;
                append_u64(*row, to)
            }
            Value::Draw(sequence, drawn) => {
                append_sequence(schema, *sequence, to)?;
                to.append(b" ")?;
                append_u64(*drawn, to)
            }
        }
    }
}

// A sequence by its name, where there is one.
fn append_sequence(schema: &Schema, sequence: u32, to: &mut Bytes) -> Result<(), Memory>
    ensures { OnOk result (to.new ≡ to.old ++ sequence_shown schema.now sequence) }
{
    match schema.sequences().get(sequence as usize) {
        Some(name) => to.append(name.as_str().as_bytes()),
        None => {
            to.append(b"sequence ")?;
            append_u64(u64::from(sequence), to)
        }
    }
}

impl Readable for Values {
    ghost readable = { row_shown };

    fn append_to(&self, schema: &Schema, to: &mut Bytes) -> Result<(), Memory> {
        to.append(b"(")?;
        append_listed(schema, self.as_slice(), to)?;
        to.append(b")")
    }
}

impl Readable for Image {
    ghost readable = { image_shown };

    fn append_to(&self, schema: &Schema, to: &mut Bytes) -> Result<(), Memory> {
        append_table(schema, self.table, to)?;
        to.append(b" row ")?;
        append_u64(self.row, to)?;
        append_left(schema, &self.left, to)
    }
}

// A table by its name, where there is one.
fn append_table(schema: &Schema, table: u32, to: &mut Bytes) -> Result<(), Memory>
    ensures { OnOk result (to.new ≡ to.old ++ table_shown schema.now table) }
{
    match schema.tables().get(table as usize) {
        Some(found) => to.append(found.name.as_str().as_bytes()),
        None => {
            to.append(b"table ")?;
            append_u64(u64::from(table), to)
        }
    }
}

// What is left of a row.
fn append_left(schema: &Schema, left: &Option<Values>, to: &mut Bytes) -> Result<(), Memory>
    ensures { OnOk result (to.new ≡ to.old ++ left_shown schema.now left.now) }
{
    match left {
        Some(values) => {
            to.append(b" = ")?;
            values.append_to(schema, to)
        }
        None => to.append(b" gone"),
    }
}
