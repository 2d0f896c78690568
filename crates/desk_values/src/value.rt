ghost use Rattle.std.specs.Prelude.{◌≡◌, ◌++◌, ◌∷◌, ◌↔◌, ◌≤◌, [], length, OnOk, OnErr, IsErrOf, IsNone, slice_get, ◌==◌};
ghost use Rattle.std.specs.Option.{option_copied};
ghost use Rattle.desk_values.specs.Limits.{bind_limit};
ghost use Rattle.desk_values.specs.declared.value.BindErr.TheVariants.{Memory as OutOfMemory};

use crate::list::List;
use crate::memory::{Copied, Memory};
use crate::text::Txt;
use std::alloc::Global;
use std::marker::Model;
use thiserror::Error;

/// A value of SQL (ISO/IEC 9075-2): what a column, a bind or an item of a row holds. Rows and draws are ids: a client
/// knows them only from what the server gave it, so that a replay has to put its own in their place.
#[derive(Drop)]
pub enum Value {
    /// No value, which is no number and no text either.
    Null,
    /// A whole number of 64 bits.
    Int(i64),
    /// A text, the empty one too.
    Text(Txt),
    /// The number of a row, an id.
    Row(u64),
    /// A value drawn from a sequence, an id: the sequence's number and the value.
    Draw(u32, u64),
}

impl Value {
    ghost use Rattle.desk_values.specs.Ids.{is_id};

    /// Whether it is an id: the number of a row, or a value that was drawn.
    pub fn is_id(&self) -> bool
        ensures { result ≡ is_id self.now }
    {
        matches!(self, Value::Row(_) | Value::Draw(_, _))
    }
}

impl Copied for Value {
    fn copy(&self) -> Result<Value, Memory> {
        match self {
            Value::Null => Ok(Value::Null),
            Value::Int(number) => Ok(Value::Int(*number)),
            Value::Text(text) => Ok(Value::Text(text.copy()?)),
            Value::Row(row) => Ok(Value::Row(*row)),
            Value::Draw(sequence, value) => Ok(Value::Draw(*sequence, *value)),
        }
    }
}

/// Values in order, as those of a row.
pub type Values = List<Value>;

/// Rows of values.
pub type RowList = List<Values>;

/// Bytes, as those of a file.
pub type Bytes = List<u8>;

/// Stamps of calls, or other numbers.
pub type Stamps = List<u32>;

/// The greatest number of binds of a call.
pub const BIND_LIMIT: usize = 16;

/// The greatest number of tables. They are numbered from 0, so that no table has this number or a greater one.
pub const TABLE_LIMIT: u32 = 32;

/// The values of a call's binds, at most 16. Contracts see the list.
#[derive(Drop)]
pub struct Binds {
    values: Values,
}

impl Model for Binds {
    ghost use Rattle.std.specs.Prelude.{List, ◌≤◌, length};
    ghost use Rattle.desk_values.specs.declared.value.Value.{Value as Bind};
    ghost use Rattle.desk_values.specs.Limits.{bind_limit};

    ghost Value = { List Bind };

    ghost view = { λ a. a.values };

    ghost invariant = { λ a. length a.values ≤ bind_limit };
}

/// Why a bind was not added.
#[derive(Clone, Copy, Debug, PartialEq, Eq, Error)]
pub enum BindErr {
    /// There are 16 already.
    #[error("over {BIND_LIMIT} binds")]
    Full,
    /// Want of memory.
    #[error("out of memory")]
    Memory,
}

impl From<Memory> for BindErr {
    ghost from_gives = { λ _ e. e ≡ OutOfMemory };

    fn from(_error: Memory) -> BindErr {
        BindErr::Memory
    }
}

impl Binds {
    /// No binds.
    pub fn new(alloc: Global) -> Self
        ensures { result ≡ [] }
    {
        Binds {
            values: List::new(alloc),
        }
    }

    /// The binds of a list of at most 16 values.
    pub fn from_values(values: Values) -> Self
        requires { length values ≤ bind_limit }
        ensures { result ≡ values }
    {
        Binds { values }
    }

    /// How many binds there are.
    pub fn len(&self) -> usize
        ensures count { result ≡ length self.now }
        ensures limit { result ≤ bind_limit }
    {
        self.values.len()
    }

    /// Whether there is none.
    pub fn is_empty(&self) -> bool
        ensures { result ≡ (length self.now == 0) }
    {
        self.values.is_empty()
    }

    /// The bind at a place from 0.
    pub fn get(&self, i: usize) -> Option<&Value>
        ensures value { option_copied result ≡ slice_get self.now i }
        ensures none { IsNone result ↔ (length self.now ≤ i) }
    {
        self.values.get(i)
    }

    /// The binds in order.
    pub fn as_slice(&self) -> &[Value]
        ensures value { result.now ≡ self.now }
        ensures limit { length self.now ≤ bind_limit }
    {
        self.values.as_slice()
    }

    /// Adds a bind at the end. `Full` where there are 16 already, which is told before memory is asked for. An `Err`
    /// changes nothing.
    pub fn push(&mut self, value: Value) -> Result<(), BindErr>
        ensures ok { OnOk result (self.new ≡ self.old ++ value ∷ []) }
        ensures full { IsErrOf result BindErr.Full ↔ (length self.old ≡ bind_limit) }
        ensures err { OnErr result (self.new ≡ self.old) }
    {
        if self.values.len() == BIND_LIMIT {
            return Err(BindErr::Full);
        }
        self.values.push(value)?;
        Ok(())
    }
}

impl Copied for Binds {
    fn copy(&self) -> Result<Binds, Memory> {
        Ok(Binds {
            values: self.values.copy()?,
        })
    }
}

/// A row as a commit leaves it, or as a start has it.
#[derive(Drop)]
pub struct Image {
    /// The row's number.
    pub row: u64,
    /// The number of its table, from 0.
    pub table: u32,
    /// The row's values by column, or `None` where it is deleted.
    pub left: Option<Values>,
}

impl Copied for Image {
    fn copy(&self) -> Result<Image, Memory> {
        let left = match &self.left {
            Some(values) => Some(values.copy()?),
            None => None,
        };
        Ok(Image {
            row: self.row,
            table: self.table,
            left,
        })
    }
}

/// Images of rows. In a commit, the row numbers rise.
pub type Images = List<Image>;
