//! Ids, and pairs of ids: one of a captured run, and the one that stands for it in a replayed run.
//!
//! Enters: values. Leaves: the ids that they are. It touches nothing. The definitions of lists of pairs stand here for
//! the crates above: what such a list is, what it gains from two replies to one call, and what it makes of values.
#![tactic(auto)]

ghost use Rattle.std.specs.Prelude.{◌≡◌};
ghost use Rattle.id_pairs.specs.Ids.{id_of, id_value, same_id};

pub mod carrying_laws;
pub mod laws;

use desk_values::Value;

/// An id: what a client knows only from what the server gave it.
#[derive(Clone, Copy, Debug, PartialEq, Eq, Hash)]
pub enum Id {
    /// The number of a row.
    Row(u64),
    /// A value drawn from a sequence: the sequence's number and the value.
    Draw(u32, u64),
}

impl Id {
    /// The id that a value is, if it is one.
    pub fn of_value(value: &Value) -> Option<Id>
        ensures { result ≡ id_of value.now }
    {
        match value {
            Value::Row(row) => Some(Id::Row(*row)),
            Value::Draw(sequence, drawn) => Some(Id::Draw(*sequence, *drawn)),
            _ => None,
        }
    }

    /// The id as a value.
    pub fn to_value(self) -> Value
        ensures { result ≡ id_value self }
    {
        match self {
            Id::Row(row) => Value::Row(row),
            Id::Draw(sequence, drawn) => Value::Draw(sequence, drawn),
        }
    }

    /// Whether the two are the same id.
    pub fn same(self, other: Id) -> bool
        ensures { result ≡ same_id self other }
    {
        self == other
    }
}
