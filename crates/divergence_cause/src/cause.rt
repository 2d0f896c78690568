use desk_values::{Copied, List, Memory, Word};

/// Why a call differs.
#[derive(Clone, Copy, Debug, PartialEq, Eq)]
pub enum Cause {
    /// Its session met something else than in the capture, or another call was sent: calls in another order, other rights, or what
    /// follows from calls before it.
    Timing,
    /// Its session met what it met in the capture, but for ids: so the server is another.
    Upgrade,
}

impl Word for Cause {
    ghost use Rattle.divergence_cause.specs.Cause.{cause_word, all_causes, causes_have_own_words};

    ghost word_of = { cause_word };

    ghost members_of = { all_causes };

    ghost own_words = { causes_have_own_words };

    fn members() -> &'static [Cause] {
        &[Cause::Timing, Cause::Upgrade]
    }

    fn word(self) -> &'static str {
        match self {
            Cause::Timing => "timing",
            Cause::Upgrade => "upgrade",
        }
    }
}

/// A call that differs, and why.
#[derive(Clone, Copy, Debug, PartialEq, Eq)]
pub struct CauseLine {
    /// The call's stamp.
    pub stamp: u32,
    /// Why it differs.
    pub cause: Cause,
}

impl Copied for CauseLine {
    fn copy(&self) -> Result<CauseLine, Memory> {
        Ok(*self)
    }
}

/// Such lines, by stamp.
pub type CauseList = List<CauseLine>;
