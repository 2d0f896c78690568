ghost use Rattle.std.specs.Prelude.{◌≡◌};
ghost use Rattle.sql_eval.specs.Faults.{joined, noted, told};

use desk_values::Fault;

/// Which faults some part has.
#[derive(Clone, Copy, Debug, PartialEq, Eq)]
pub struct Faults {
    /// Some part divides by zero.
    pub divides: bool,
    /// Some part's result leaves 64 bits.
    pub overflows: bool,
}

impl Faults {
    /// No part has a fault.
    pub const NONE: Faults = Faults {
        divides: false,
        overflows: false,
    };

    /// The faults of either.
    #[tactic(auto, unfolding(crate::specs::Faults::joined))]
    pub fn joined(self, other: Faults) -> Faults
        ensures { result ≡ joined self other }
    {
        Faults {
            divides: self.divides || other.divides,
            overflows: self.overflows || other.overflows,
        }
    }

    /// The faults, and that of one part more.
    #[tactic(auto, unfolding(crate::specs::Faults::noted))]
    pub fn noted<T>(self, outcome: &Result<T, Fault>) -> Faults
        ensures { result ≡ noted self outcome.now }
    {
        match outcome {
            Err(Fault::ZeroDivisor) => Faults {
                divides: true,
                overflows: self.overflows,
            },
            Err(Fault::Overflow) => Faults {
                divides: self.divides,
                overflows: true,
            },
            _ => self,
        }
    }

    /// The fault that is told of these: the zero divisor, else overflow.
    pub fn told(self) -> Option<Fault>
        ensures { result ≡ told self }
    {
        if self.divides {
            Some(Fault::ZeroDivisor)
        } else if self.overflows {
            Some(Fault::Overflow)
        } else {
            None
        }
    }
}
