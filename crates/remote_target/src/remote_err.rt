ghost use Rattle.std.specs.Prelude.{◌≡◌};
ghost use Rattle.remote_target.specs.declared.remote_err.RemoteErr.TheVariants.{Memory as OutOfMemory};

use desk_values::Memory;
use remote_desk::Job;
use remote_link::Heard;
use std::fmt;
use thiserror::Error;

/// Why a replay against another server came to no end.
#[derive(Drop, Error)]
pub enum RemoteErr {
    /// A line failed, or could not be dialled.
    #[error("the link failed")]
    Link,
    /// The desk carries another job.
    #[error("another job")]
    OtherJob {
        /// The desk's.
        kept: Job,
    },
    /// What the desk keeps of a session is not what its line heard.
    #[error("session {session} differs at place {place}")]
    Mismatch {
        /// A session where it is so.
        session: u32,
        /// The first place where they differ.
        place: u32,
        /// What the desk has there.
        kept: Option<Heard>,
        /// What the line has there.
        answered: Option<Heard>,
    },
    /// Want of memory.
    #[error("out of memory")]
    Memory,
}

impl fmt::Debug for RemoteErr {
    fn fmt<W: fmt::Write>(&self, f: &mut fmt::Formatter<W>) -> fmt::Result {
        fmt::Display::fmt(self, f)
    }
}

impl From<Memory> for RemoteErr {
    ghost from_gives = { λ _ e. e ≡ OutOfMemory };

    fn from(_error: Memory) -> RemoteErr {
        RemoteErr::Memory
    }
}
