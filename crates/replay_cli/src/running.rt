//! A command, from its words to the files that it writes.

ghost use Rattle.std.specs.Prelude.{◌≡◌, [], IsOk, IsSomeAnd};
ghost use Rattle.desk_files.specs.Answers.{write_ending};
ghost use Rattle.desk_files.specs.Outside.{Counts, Told};
ghost use Rattle.desk_files.specs.Writes.{LeavesOfWrites};
ghost use Rattle.desk_words.specs.Command.{command_of};
ghost use Rattle.replay_cli.specs.Decision.{Verdict};
ghost use Rattle.replay_cli.specs.Ending.{GivesAllBack, MayAsk, MayComeTo};
ghost use Rattle.replay_cli.specs.Hosting.{dialling, hosting};
ghost use Rattle.replay_cli.specs.Inside.Ending.{RunFaults, RunSays};
ghost use Rattle.replay_cli.specs.Inside.Serving.{DialFaults};

use crate::failure::Failure;
use crate::plan::{Plan, plan_of};
use crate::work::decide;
use desk_files::{Door, Files, Host, Write, WriteErr, write_all};
use desk_values::Txt;
use desk_words::command_of;
use remote_link::Dial;
use run_register::Keeper;
use std::alloc::Global;
use std::sync::Wait;
use std::thread::Threads;
use std::time::Clock;

/// Does what the words say, and gives what there is to print.
pub fn run<R: Clock + Wait + Threads + Sync, F: Files, H: Host, D: Door, K: Keeper, L: Dial>(
    rt: &R,
    alloc: Global,
    words: &[Txt],
    files: &mut F,
    host: &mut H,
    door: &D,
    keeper: &mut K,
    dial: &mut L,
) -> Result<Plan, Failure>
    ensures says { Told (F.account files.old).content (λ before. IsSomeAnd (F.account files.new).content (λ after.
        RunSays (Verdict words.now before) before after
        (F.account files.old).faults (F.account files.new).faults
        (hosting (H.account host.old) (H.account host.new) (K.account keeper.old) (K.account keeper.new) (L.account dial.old) (L.account dial.new)) result)) }
    ensures faults { RunFaults result (F.account files.old).faults (F.account files.new).faults
        (hosting (H.account host.old) (H.account host.new) (K.account keeper.old) (K.account keeper.new) (L.account dial.old) (L.account dial.new)) }
    ensures dial { DialFaults result (dialling (L.account dial.old) (L.account dial.new)) }
    ensures asks { MayAsk (command_of words.now) (hosting (H.account host.old) (H.account host.new) (K.account keeper.old) (K.account keeper.new) (L.account dial.old) (L.account dial.new)) }
    ensures handed { GivesAllBack (command_of words.now)
        (hosting (H.account host.old) (H.account host.new) (K.account keeper.old) (K.account keeper.new) (L.account dial.old) (L.account dial.new))
        (K.account keeper.old).closes (K.account keeper.new).closes result }
    ensures told { MayComeTo (command_of words.now)
        (hosting (H.account host.old) (H.account host.new) (K.account keeper.old) (K.account keeper.new) (L.account dial.old) (L.account dial.new)) result }
{
    let Some(command) = command_of(alloc, words)? else {
        return Err(Failure::BadCommand);
    };
    let work = decide(alloc, command, files)?;
    let plan = plan_of(rt, alloc, work, host, door, keeper, dial)?;
    match written(plan.writes.as_slice(), files) {
        Ok(()) => Ok(plan),
        Err(WriteErr::Failed) => Err(Failure::DeviceFault),
        Err(WriteErr::Memory) => Err(Failure::OutOfMemory),
    }
}

/// Writes these files. Where there is none, nothing is asked, so nothing fails.
fn written<F: Files>(writes: &[Write], files: &mut F) -> Result<(), WriteErr>
    ensures left { Told (F.account files.old).content (λ before. IsSomeAnd (F.account files.new).content (LeavesOfWrites writes.now before result)) }
    ensures faults { Counts (write_ending result) (F.account files.old).faults (F.account files.new).faults }
    ensures none { writes.now ≡ [] → IsOk result }
{
    if writes.is_empty() {
        Ok(())
    } else {
        write_all(writes, files)
    }
}
