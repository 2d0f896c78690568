ghost use Rattle.std.specs.Prelude.{◌≡◌, slice_get, IfOk, IsTrue, ◌↔◌};
ghost use Rattle.desk_schema.specs.File.{IsStart};
ghost use Rattle.desk_schema.specs.Change.{Changes, records_in};

use crate::change::{ChangeErr, changed_start};
use crate::schema::Schema;
use desk_values::{Copied, Images, Memory, Same};
use std::marker::Model;

/// What a replay starts from: a schema, rows, the number of the next row and the next value of each sequence.
#[derive(Drop)]
pub struct Start {
    schema: Schema,
    rows: Images,
    next_row: u64,
    next_values: Vec<u64>,
}

impl Model for Start {
    ghost use Rattle.desk_schema.specs.Start.{StartView};
    ghost use Rattle.desk_schema.specs.File.{IsStart};

    ghost Value = { StartView };

    ghost view = { λ a. record { schema = a.schema; rows = a.rows; next_row = a.next_row; next_values = a.next_values.items } };

    ghost invariant = { λ a. IsStart
        (record { schema = a.schema; rows = a.rows; next_row = a.next_row; next_values = a.next_values.items }) };
}

impl Copied for Start {
    fn copy(&self) -> Result<Start, Memory> {
        Ok(Start {
            schema: self.schema.copy()?,
            rows: self.rows.copy()?,
            next_row: self.next_row,
            next_values: self.next_values.clone()?,
        })
    }
}

impl Start {
    /// The start of these parts.
    pub(crate) fn from_parts(
        schema: Schema,
        rows: Images,
        next_row: u64,
        next_values: Vec<u64>,
    ) -> Start
        requires { IsStart (record { schema = schema; rows = rows; next_row = next_row; next_values = next_values.items }) }
        ensures { result ≡ record { schema = schema; rows = rows; next_row = next_row; next_values = next_values.items } }
    {
        Start {
            schema,
            rows,
            next_row,
            next_values,
        }
    }

    /// What a start keeps: the rules of its file. It does nothing: its contract is a law.
    pub fn know_rules(&self)
        ensures { IsStart self.now }
    {
        let _schema = &self.schema;
    }

    /// The schema.
    pub fn schema(&self) -> &Schema
        ensures value { result.now ≡ self.now.schema }
        ensures valid { IsStart self.now }
    {
        &self.schema
    }

    /// The rows, by ascending number.
    pub fn rows(&self) -> &Images
        ensures value { result.now ≡ self.now.rows }
        ensures valid { IsStart self.now }
    {
        &self.rows
    }

    /// The number of the next row.
    pub fn next_row(&self) -> u64
        ensures { result ≡ self.now.next_row }
    {
        self.next_row
    }

    /// The next value of a sequence, `None` where there is no such sequence.
    pub fn next_value(&self, seq: u32) -> Option<u64>
        ensures { result ≡ slice_get self.now.next_values seq }
    {
        self.next_values.get(seq as usize).copied()
    }

    /// The next value of each sequence, by number.
    pub fn next_values(&self) -> &[u64]
        ensures { result.now ≡ self.now.next_values }
    {
        self.next_values.as_slice()
    }

    /// The start that the records of a change file lead to, one after another: CSV without a head record.
    ///
    /// `level,L` sets the level of the SQL rules. `range,TABLE,COLUMN,LOW,HIGH` sets the range of a column of numbers,
    /// `length,TABLE,COLUMN,BYTES` the length of a column of texts, and `null,TABLE,COLUMN,notnull` or `null` whether a
    /// column may be null. `next,SEQUENCE,NEXT` sets a next value, which may not fall. `service,NAME,rw` or `ro` sets a
    /// service's rights where it stands, or adds it behind the others; `service,NAME,none` takes it away. Names are matched
    /// byte for byte.
    ///
    /// # Errors
    ///
    /// `BadRow` with the number, from 1, of the first record that is none of these, that names what is not there, or after
    /// which a rule of starts is broken, by the rows too. `Memory` for want of memory.
    pub fn change(&self, bytes: &[u8]) -> Result<Start, ChangeErr>
        ensures { Changes self.now (records_in bytes.now) result }
    {
        changed_start(self, bytes)
    }

    /// Whether the two starts are equal. Services are compared in order.
    pub fn same(&self, other: &Start) -> bool
        ensures { IsTrue result ↔ (self.now ≡ other.now) }
    {
        self.schema.same(&other.schema)
            && self.rows.same(&other.rows)
            && self.next_row == other.next_row
            && self.next_values.as_slice() == other.next_values.as_slice()
    }
}
