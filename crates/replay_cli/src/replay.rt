//! The job of a trial.

ghost use Rattle.std.specs.Prelude.{◌≡◌, IfOk, map};
ghost use Rattle.replay_job.specs.Job.{HasMoments, seen};
ghost use Rattle.replay_job.specs.Replays.{IsSoundJob};
ghost use Rattle.replay_job.specs.Jobs.{IsTrial, plain_fact};
ghost use Rattle.captured_calls.specs.Verdict.{IsLegal};

use desk_schema::Start;
use desk_values::{CallList, Captured, Copied, List, Memory};
use object_depends::{Fact, FactList, Mode};
use remap_ids::Remap;
use replay_job::Job;
use std::alloc::Global;

/// The job of replaying a capture as it is, in its order and without pauses.
pub fn trial_of(alloc: Global, start: &Start, calls: &CallList) -> Result<Job, Memory>
    requires legal { IsLegal start.now calls.now.items }
    requires moments { HasMoments calls.now.items }
    ensures trial { IfOk result (λ job. IsTrial start.now calls.now.items (seen job)) }
    ensures sound { IfOk result (λ job. IsSoundJob (seen job)) }
{
    start.know_rules();
    let begins = start.copy()?;
    let target = start.copy()?;
    let copies = calls.copy()?;
    let facts = plain_facts(alloc, calls.as_slice())?;
    Ok(Job {
        start: begins,
        target,
        calls: copies,
        facts,
        remap: Remap::none(alloc),
        mode: Mode::Order,
        think: 0,
        connect: 0,
    })
}

/// What a replay in the captured order has to know of the calls. Which tables they speak of is not asked.
fn plain_facts(alloc: Global, calls: &[Captured]) -> Result<FactList, Memory>
    ensures { IfOk result (λ facts. facts ≡ map plain_fact calls.now) }
{
    let mut facts = List::new(alloc);
    for call in calls {
        facts.push(Fact {
            session: call.session,
            seen: call.seen,
            number: call.number,
            refs: 0,
            writes: 0,
        })?;
    }
    Ok(facts)
}
