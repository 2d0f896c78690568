//! Laws of jobs. A call does nothing: its clause is the law.

ghost use Rattle.std.specs.Prelude.{◌≡◌, ◌≤◌, ℕ, List, Ok, length, map};
ghost use Rattle.desk_values.specs.declared.capture.Captured.{Captured};
ghost use Rattle.desk_schema.specs.Sound.{IsSoundStart};
ghost use Rattle.desk_schema.specs.Start.{StartView};
ghost use Rattle.desk_schema.specs.Target.{IsTarget};
ghost use Rattle.replay_history.specs.declared.mode.Mode.{Mode};
ghost use Rattle.remap_ids.specs.Services.{ServicePair};
ghost use Rattle.captured_calls.specs.Sessions.{AreSessionsFrom};
ghost use Rattle.captured_calls.specs.Verdict.{IsLegal, Preparation, verdict};
ghost use Rattle.replay_job.specs.Job.{HasMoments, JobView};
ghost use Rattle.replay_job.specs.Replays.{IsSoundJob};
ghost use Rattle.replay_job.specs.Jobs.{IsTrial, job_of, plain_fact};

/// The plan that the verdict gives on files of sessions can be replayed: on each target that a replay may begin with, as any
/// services, in every mode, and with percentages to 1000. Every start keeps its rules.
pub fn plans_can_be_replayed()
    ensures { (start target : StartView) (lists : List (List Captured)) (plan : Preparation) (remap : List ServicePair)
        (mode : Mode) (think connect : ℕ)
        → AreSessionsFrom 0 lists → length lists ≤ 64 → verdict start lists ≡ Ok plan → IsSoundStart start
        → IsSoundStart target → IsTarget start target → think ≤ 1000 → connect ≤ 1000
        → IsSoundJob (job_of start target plan remap mode think connect) }
{}

/// So can a trial of legal calls that begin in time, of which no more is known than the captured order needs.
pub fn trials_can_be_replayed()
    ensures { (captured : StartView) (recorded : List Captured) (job : JobView) → IsSoundStart captured
        → IsLegal captured recorded → HasMoments recorded → IsTrial captured recorded job
        → job.facts ≡ map plain_fact recorded → IsSoundJob job }
{}
