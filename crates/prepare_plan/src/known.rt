//! Which ids a client can know, by the start's rows and the recorded replies.

ghost use Rattle.std.specs.Prelude.{[]};
ghost use Rattle.desk_values.specs.Answers.{Answers};
ghost use Rattle.captured_calls.specs.Tests.{bad_ids, first_refused};
ghost use Rattle.prepare_plan.specs.Inside.{passed, told};

use captured_calls::Refusal;
use desk_values::{Captured, Image};
use known_ids::KnownIds;
use std::alloc::Global;

/// Whether each id in a bind was given before.
pub(crate) fn judge_ids(alloc: Global, rows: &[Image], calls: &[Captured]) -> Result<(), Refusal>
    ensures { Answers passed told result (first_refused (bad_ids rows.now) [] calls.now) }
{
    let known = KnownIds::of_calls(alloc, rows, calls)?;
    for (k, call) in calls.iter().enumerate() {
        if known.has_stranger(&call.call, k) {
            return Err(Refusal::Stranger { stamp: call.stamp });
        }
    }
    Ok(())
}
