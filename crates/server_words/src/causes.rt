//! Why a statement is refused.

ghost use Rattle.std.specs.Prelude.{◌≡◌};
ghost use Rattle.server_words.specs.Causes.{no_cause, ranked};
ghost use Rattle.server_words.specs.Causes.{first_causes};

use desk_values::Fault;
use sql_eval::Faults;

/// What may be wrong with the rows that a statement touches, in the order in which it is told.
#[derive(Clone, Copy, Debug, PartialEq, Eq)]
pub struct Causes {
    /// A number is divided by zero.
    pub divides: bool,
    /// A number leaves 64 bits.
    pub overflows: bool,
    /// More than 1,000 rows match, or the transaction would change more than that.
    pub too_many: bool,
    /// A row or a key is held by another session.
    pub locked: bool,
    /// A new value is Null in a column that takes none.
    pub null: bool,
    /// A new text is longer than its column.
    pub too_long: bool,
    /// A new number is out of its column's range.
    pub out_of_range: bool,
    /// Two rows have one key afterwards.
    pub duplicate: bool,
}

impl Causes {
    /// Nothing is wrong.
    pub fn none() -> Causes
        ensures { result ≡ no_cause }
    {
        Causes {
            divides: false,
            overflows: false,
            too_many: false,
            locked: false,
            null: false,
            too_long: false,
            out_of_range: false,
            duplicate: false,
        }
    }

    /// Those that go before all that holds and new images bring: faults of expressions, and too many rows.
    pub fn first(faults: Faults, too_many: bool) -> Causes
        ensures { result ≡ first_causes faults too_many }
    {
        Causes {
            divides: faults.divides,
            overflows: faults.overflows,
            too_many,
            ..Causes::none()
        }
    }

    /// The fault of the first cause that applies.
    #[tactic(auto, unfolding(crate::specs::Causes::ranked))]
    pub fn ranked(self) -> Option<Fault>
        ensures { result ≡ ranked self }
    {
        if self.divides {
            Some(Fault::ZeroDivisor)
        } else if self.overflows {
            Some(Fault::Overflow)
        } else if self.too_many {
            Some(Fault::TooManyRows)
        } else if self.locked {
            Some(Fault::Locked)
        } else if self.null {
            Some(Fault::NullValue)
        } else if self.too_long {
            Some(Fault::TextTooLong)
        } else if self.out_of_range {
            Some(Fault::OutOfRange)
        } else if self.duplicate {
            Some(Fault::DuplicateKey)
        } else {
            None
        }
    }
}
