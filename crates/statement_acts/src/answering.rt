//! Replies that draw and make nothing.

ghost use Rattle.std.specs.Prelude.{◌≡◌, [], None as Nothing_made};
ghost use Rattle.server_words.specs.Answer.{reply_of};

use desk_values::{Fault, List, Outcome, Reply};
use server_words::{Decision, Deed};
use std::alloc::Global;

/// Answered so.
pub fn answered(alloc: Global, outcome: Outcome, deed: Deed) -> Decision
    ensures { result ≡ record { reply = reply_of outcome [] None; deed = deed } }
{
    Decision {
        reply: Reply {
            outcome,
            draws: List::new(alloc),
            made: None,
        },
        deed,
    }
}

/// Refused, with nothing drawn.
pub fn refused(alloc: Global, fault: Fault) -> Decision
    ensures { result ≡ record { reply = reply_of (Outcome.Refused fault) [] None; deed = Deed.Nothing } }
{
    answered(alloc, Outcome::Refused(fault), Deed::Nothing)
}
