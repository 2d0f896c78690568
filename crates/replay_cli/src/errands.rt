//! What is asked of the keeper of runs.

ghost use Rattle.std.specs.Prelude.{◌≡◌, IfErr, IfOk};
ghost use Rattle.desk_files.specs.Outside.{raised};
ghost use Rattle.register_work.specs.Keeping.{keeping};
ghost use Rattle.replay_cli.specs.Done.{IsKept};
ghost use Rattle.replay_cli.specs.Inside.Serving.{KeepFails, settled, unclosed};

use crate::failure::Failure;
use crate::plan::Plan;
use desk_values::List;
use register_work::{Answer, Errand, ErrandErr, do_errand};
use run_register::{KeepErr, Keeper};
use std::alloc::Global;

/// Does an errand, and closes the keeper: what is printed, and no file.
pub(crate) fn keeping<K: Keeper>(
    alloc: Global,
    errand: &Errand,
    keeper: &mut K,
) -> Result<Plan, Failure>
    ensures done { IfOk result (IsKept errand.now (keeping (K.account keeper.old) (K.account keeper.new))) }
    ensures fails { IfErr result (KeepFails errand.now (keeping (K.account keeper.old) (K.account keeper.new))) }
    ensures closed { (K.account keeper.new).closes ≡ raised (K.account keeper.old).closes }
{
    let done = do_errand(alloc, errand, keeper);
    let closed = keeper.close();
    settled(alloc, done, closed)
}

// What comes of an errand that ended so, where the keeper was closed so behind it. A device that failed goes before all else, and a cause why
// the errand is not done before want of memory in closing.
fn settled(
    alloc: Global,
    done: Result<Answer, ErrandErr>,
    closed: Result<(), KeepErr>,
) -> Result<Plan, Failure>
    ensures { result ≡ settled done closed }
{
    match done {
        Ok(answer) => match closed {
            Ok(()) => Ok(Plan {
                line: answer.text,
                differs: answer.news,
                writes: List::new(alloc),
            }),
            Err(error) => Err(unclosed(error)),
        },
        Err(ErrandErr::NotDone(cause)) => match closed {
            Ok(()) => Err(Failure::NotDone(cause)),
            Err(KeepErr::Failed) => Err(Failure::DeviceFault),
            Err(KeepErr::Memory) => Err(Failure::NotDone(cause)),
        },
        Err(ErrandErr::Failed) => Err(Failure::DeviceFault),
        Err(ErrandErr::Memory) => match closed {
            Ok(()) => Err(Failure::OutOfMemory),
            Err(error) => Err(unclosed(error)),
        },
    }
}

// What a keeper that could not be closed is told as.
fn unclosed(error: KeepErr) -> Failure
    ensures { result ≡ unclosed error }
{
    match error {
        KeepErr::Failed => Failure::DeviceFault,
        KeepErr::Memory => Failure::OutOfMemory,
    }
}
