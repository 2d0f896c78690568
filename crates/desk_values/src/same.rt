ghost use Rattle.std.specs.Prelude.{◌≡◌, ◌↔◌, IsTrue};

use crate::call::{Call, Outcome, Reply};
use crate::capture::Captured;
use crate::list::List;
use crate::text::Txt;
use crate::value::{Binds, Image, Value};

/// A value that can be compared with another one.
pub trait Same {
    /// Whether the two are equal.
    fn same(&self, other: &Self) -> bool
        ensures { IsTrue result ↔ (self.now ≡ other.now) };
}

impl Same for u64 {
    fn same(&self, other: &u64) -> bool {
        *self == *other
    }
}

impl<T: Same> Same for Option<T> {
    fn same(&self, other: &Option<T>) -> bool {
        match (self, other) {
            (None, None) => true,
            (Some(left), Some(right)) => left.same(right),
            _ => false,
        }
    }
}

impl<T: Same> Same for List<T> {
    fn same(&self, other: &List<T>) -> bool {
        same_items(self.as_slice(), other.as_slice())
    }
}

/// Whether the two have equal items in one order.
pub fn same_items<T: Same>(left: &[T], right: &[T]) -> bool
    ensures { IsTrue result ↔ (left.now ≡ right.now) }
{
    if left.len() != right.len() {
        return false;
    }
    for i in 0..left.len() {
        if !left[i].same(&right[i]) {
            return false;
        }
    }
    true
}

impl Same for Txt {
    fn same(&self, other: &Txt) -> bool {
        self.as_str() == other.as_str()
    }
}

impl Same for Value {
    fn same(&self, other: &Value) -> bool {
        match (self, other) {
            (Value::Null, Value::Null) => true,
            (Value::Int(left), Value::Int(right)) => *left == *right,
            (Value::Text(left), Value::Text(right)) => left.same(right),
            (Value::Row(left), Value::Row(right)) => *left == *right,
            (Value::Draw(left, n), Value::Draw(right, m)) => *left == *right && *n == *m,
            _ => false,
        }
    }
}

impl Same for Binds {
    fn same(&self, other: &Binds) -> bool {
        same_items(self.as_slice(), other.as_slice())
    }
}

impl Same for Image {
    fn same(&self, other: &Image) -> bool {
        self.row == other.row && self.table == other.table && self.left.same(&other.left)
    }
}

impl Same for Outcome {
    fn same(&self, other: &Outcome) -> bool {
        match (self, other) {
            (Outcome::Rows(left), Outcome::Rows(right)) => left.same(right),
            (Outcome::Count(left), Outcome::Count(right)) => *left == *right,
            (Outcome::Committed(left), Outcome::Committed(right)) => left.same(right),
            (Outcome::RolledBack, Outcome::RolledBack) => true,
            (Outcome::Marked, Outcome::Marked) => true,
            (Outcome::Connected, Outcome::Connected) => true,
            (Outcome::Disconnected, Outcome::Disconnected) => true,
            (Outcome::Refused(left), Outcome::Refused(right)) => *left == *right,
            _ => false,
        }
    }
}

impl Same for Reply {
    fn same(&self, other: &Reply) -> bool {
        self.outcome.same(&other.outcome)
            && self.draws.same(&other.draws)
            && self.made.same(&other.made)
    }
}

impl Same for Call {
    fn same(&self, other: &Call) -> bool {
        match (self, other) {
            (Call::Connect(left), Call::Connect(right)) => left.same(right),
            (Call::Sql(left, binds), Call::Sql(right, others)) => {
                left.same(right) && binds.same(others)
            }
            (Call::Disconnect, Call::Disconnect) => true,
            _ => false,
        }
    }
}

impl Same for Captured {
    fn same(&self, other: &Captured) -> bool {
        self.session == other.session
            && self.place == other.place
            && self.stamp == other.stamp
            && self.seen == other.seen
            && self.number == other.number
            && self.began == other.began
            && self.ended == other.ended
            && self.call.same(&other.call)
            && self.reply.same(&other.reply)
    }
}
