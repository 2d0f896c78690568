//! Why no capture came of a service.

ghost use Rattle.std.specs.Prelude.{◌≡◌, IfErr};
ghost use Rattle.capture_serve.specs.Failing.{err_of};

use crate::halt::Halt;
use capture_recorder::{GatherErr, Said};
use desk_values::Memory;

/// What was found to differ where what the recorder holds was compared with what the connections were told.
#[derive(Drop)]
pub enum Finding {
    /// The recorder has another start.
    Start,
    /// A session has another call or reply at a place: what the recorder holds there, and what the session was answered.
    Mismatch {
        /// The session.
        session: u32,
        /// The place in it.
        place: u32,
        /// What the recorder holds.
        kept: Option<Said>,
        /// What the session was answered.
        answered: Option<Said>,
    },
    /// A call of a session was turned away, and the recorder does not bear that out.
    Refusal {
        /// The session.
        session: u32,
        /// The number of the call among those of the session that were turned away.
        n: u32,
    },
}

/// Why no capture came of a service.
#[derive(Drop)]
pub enum ServeErr {
    /// The host failed.
    Failed {
        /// Whether memory was short as well, so that the host does not tell all connections that were given back.
        short: bool,
    },
    /// Something differs.
    Differs(Finding),
    /// Want of memory.
    Memory,
}

impl From<Memory> for ServeErr {
    ghost use Rattle.capture_serve.specs.declared.failing.ServeErr.TheVariants.{Memory as OutOfMemory};

    ghost from_gives = { λ _ e. e ≡ OutOfMemory };

    fn from(_error: Memory) -> ServeErr {
        ServeErr::Memory
    }
}

/// What an error of gathering is here.
pub(crate) fn failed(error: GatherErr) -> ServeErr
    ensures { result ≡ err_of error }
{
    match error {
        GatherErr::OtherStart { .. } => ServeErr::Differs(Finding::Start),
        GatherErr::Mismatch {
            session,
            place,
            kept,
            answered,
        } => ServeErr::Differs(Finding::Mismatch {
            session,
            place,
            kept,
            answered,
        }),
        GatherErr::Refusal { session, n, .. } => {
            ServeErr::Differs(Finding::Refusal { session, n })
        }
        GatherErr::Memory => ServeErr::Memory,
    }
}
