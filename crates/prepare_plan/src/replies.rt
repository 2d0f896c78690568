//! The test of replies, by the SQL engine.

ghost use Rattle.std.specs.Prelude.{◌≡◌, ◌≤◌, [], length};
ghost use Rattle.std.specs.List.{AllByRecursion};
ghost use Rattle.desk_values.specs.Answers.{Answers};
ghost use Rattle.captured_calls.specs.Same.{same_reply};
ghost use Rattle.captured_calls.specs.Tests.{bad_reply, first_refused};
ghost use Rattle.captured_calls.specs.Inside.{IsFit};
ghost use Rattle.prepare_plan.specs.Inside.{passed, told};

use captured_calls::Refusal;
use desk_schema::Start;
use desk_values::{Captured, Copied, Reply, Same};
use std::alloc::Global;
use txn_engine::Engine;

/// Whether the machine gives each reply.
pub(crate) fn judge_replies(alloc: Global, start: &Start, calls: &[Captured]) -> Result<(), Refusal>
    requires fit { AllByRecursion IsFit calls.now }
    requires count { length calls.now ≤ 100000 }
    ensures { Answers passed told result (first_refused (bad_reply start.now) [] calls.now) }
{
    let mut engine = Engine::load(alloc, start)?;
    for call in calls {
        let right = engine.step(call.session, &call.call)?;
        if !is_same(&call.reply, &right) {
            return Err(Refusal::Reply {
                stamp: call.stamp,
                written: call.reply.copy()?,
                right,
            });
        }
    }
    Ok(())
}

fn is_same(written: &Reply, right: &Reply) -> bool
    ensures { result ≡ same_reply written.now right.now }
{
    written.same(right)
}
