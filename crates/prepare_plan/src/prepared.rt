ghost use Rattle.std.specs.Prelude.{◌≡◌, ◌≤◌, length, IfOk};
ghost use Rattle.std.specs.List.{AllByRecursion};
ghost use Rattle.desk_values.specs.Answers.{Answers};
ghost use Rattle.object_depends.specs.Facts.{AreSound};
ghost use Rattle.captured_calls.specs.Sessions.{AreSessionsFrom};
ghost use Rattle.prepare_plan.specs.Lists.{lists_of};
ghost use Rattle.captured_calls.specs.Verdict.{verdict, verdict_of, fault_of, IsLegal};
ghost use Rattle.prepare_plan.specs.Answered.{plan_seen, refusal_told};
ghost use Rattle.captured_calls.specs.Inside.{IsFit};
ghost use Rattle.prepare_plan.specs.Inside.{passed, told};

use crate::facts::facts_of;
use crate::gathering::gathered;
use crate::known::judge_ids;
use crate::recorded::{judge_numbers, judge_seen, judge_times};
use crate::replies::judge_replies;
use crate::seats::ordered;
use captured_calls::Refusal;
use desk_schema::Start;
use desk_values::{CallList, Captured, SessionLists};
use object_depends::FactList;
use replay_history::CALL_LIMIT;
use std::alloc::Global;

/// What a replay needs of a capture.
#[derive(Drop)]
pub struct Prepared {
    /// The calls by stamp.
    pub calls: CallList,
    /// What is known of each, by stamp.
    pub facts: FactList,
}

/// Whether these calls of sessions are a legal capture over this start: those of a server that may have answered each with
/// the reply that stands with it. `Ok` has the calls by stamp and their facts; an `Err` tells the first test that fails,
/// and where.
pub fn prepare(alloc: Global, start: &Start, sessions: &SessionLists) -> Result<Prepared, Refusal>
    requires sessions { length sessions.now ≤ 64 }
    requires lists { AreSessionsFrom 0 (lists_of sessions.now) }
    ensures verdict { Answers plan_seen refusal_told result (verdict start.now (lists_of sessions.now)) }
    ensures legal { IfOk result (λ prepared. IsLegal start.now prepared.calls.items) }
    ensures facts { IfOk result (λ prepared. AreSound prepared.facts) }
    ensures each_has_facts { IfOk result (λ prepared. length prepared.facts ≡ length prepared.calls.items) }
    ensures count { IfOk result (λ prepared. length prepared.calls.items ≤ 100000) }
{
    let owned = sessions.copy()?;
    prepare_owned(alloc, start, owned)
}

/// As [`prepare`], of calls that are given away: none is copied.
pub fn prepare_owned(
    alloc: Global,
    start: &Start,
    sessions: SessionLists,
) -> Result<Prepared, Refusal>
    requires sessions { length sessions ≤ 64 }
    requires lists { AreSessionsFrom 0 (lists_of sessions) }
    ensures verdict { Answers plan_seen refusal_told result (verdict start.now (lists_of sessions)) }
    ensures legal { IfOk result (λ prepared. IsLegal start.now prepared.calls.items) }
    ensures facts { IfOk result (λ prepared. AreSound prepared.facts) }
    ensures each_has_facts { IfOk result (λ prepared. length prepared.facts ≡ length prepared.calls.items) }
    ensures count { IfOk result (λ prepared. length prepared.calls.items ≤ 100000) }
{
    judged(alloc, start, sessions)
}

/// What becomes of the calls.
#[tactic(auto, unfolding(captured_calls::specs::Verdict::verdict))]
fn judged(alloc: Global, start: &Start, sessions: SessionLists) -> Result<Prepared, Refusal>
    requires sessions { length sessions ≤ 64 }
    requires lists { AreSessionsFrom 0 (lists_of sessions) }
    ensures { Answers plan_seen refusal_told result (verdict start.now (lists_of sessions)) }
{
    let gathered = gathered(alloc, sessions)?;
    if gathered.len() > CALL_LIMIT {
        return Err(Refusal::TooMany {
            calls: gathered.len() as u64,
        });
    }
    let calls = ordered(alloc, gathered)?;
    planned(alloc, start, calls)
}

/// The plan of calls that stand by stamp, if they pass the other tests.
fn planned(alloc: Global, start: &Start, calls: CallList) -> Result<Prepared, Refusal>
    requires fit { AllByRecursion IsFit calls.items }
    requires count { length calls.items ≤ 100000 }
    ensures { Answers plan_seen refusal_told result (verdict_of start.now calls.items) }
{
    judge(alloc, start, calls.as_slice())?;
    let facts = facts_of(alloc, start.schema(), calls.as_slice())?;
    Ok(Prepared { calls, facts })
}

/// The tests of calls that stand by stamp.
fn judge(alloc: Global, start: &Start, calls: &[Captured]) -> Result<(), Refusal>
    requires fit { AllByRecursion IsFit calls.now }
    requires count { length calls.now ≤ 100000 }
    ensures { Answers passed told result (fault_of start.now calls.now) }
{
    judge_numbers(calls)?;
    judge_seen(calls)?;
    judge_times(calls)?;
    judge_ids(alloc, start.rows().as_slice(), calls)?;
    judge_replies(alloc, start, calls)
}
