//! Runs that are asked for, and their reports.

ghost use Rattle.std.specs.Prelude.{◌≡◌, IfErr, IfOk, OnOk, Some, map};
ghost use Rattle.run_register.specs.Register.{entry_of};
ghost use Rattle.report_format.specs.ReportFile.{IsReport};
ghost use Rattle.register_work.specs.Errand.{Finds};
ghost use Rattle.register_work.specs.Inside.{AreListedBy, GotRuns, IsBadIn, IsBadText, IsMissing, Refuses, Stops, ending};
ghost use Rattle.register_work.specs.Keeping.{KeepsAll, keeping};

use crate::errand::ErrandErr;
use crate::lines::append_run;
use crate::unkept::Unkept;
use desk_values::fields::append_u64;
use desk_values::{Bytes, Copied, List, Memory, Txt};
use file_lines::FormErr;
use replay_history::Report;
use report_format::read_report;
use run_register::{Keeper, Kept};
use std::alloc::Global;

/// The bytes of the report of the run of this name.
pub(crate) fn bytes_of<K: Keeper>(name: &Txt, keeper: &mut K) -> Result<Bytes, ErrandErr>
    ensures found { IfOk result (λ bytes. Finds (K.account keeper.old).runs name.now (Some bytes)) }
    ensures stops { IfErr result (Stops (IsMissing (K.account keeper.old).runs name.now)) }
    ensures keeps { KeepsAll (keeping (K.account keeper.old) (K.account keeper.new)) (ending result) }
    ensures closes { (K.account keeper.new).closes ≡ (K.account keeper.old).closes }
{
    match keeper.get(name)? {
        Some(bytes) => Ok(bytes),
        None => Err(ErrandErr::NotDone(Unkept::NoRun(name.copy()?))),
    }
}

/// The report that the bytes of the run of this name are.
pub(crate) fn report_of(alloc: Global, name: &Txt, bytes: &[u8]) -> Result<Report, ErrandErr>
    ensures report { IfOk result (IsReport bytes.now) }
    ensures stops { IfErr result (Refuses (IsBadText name.now bytes.now)) }
{
    match read_report(alloc, bytes) {
        Ok(report) => Ok(report),
        Err(FormErr::Bad { line }) => Err(ErrandErr::NotDone(Unkept::BadRun(name.copy()?, line))),
        Err(FormErr::Memory) => Err(ErrandErr::Memory),
    }
}

/// How many runs there are, and a line for each.
pub(crate) fn runs_text(alloc: Global, runs: &[Kept]) -> Result<Bytes, ErrandErr>
    ensures text { IfOk result (AreListedBy (map entry_of runs.now)) }
    ensures stops { IfErr result (Refuses (IsBadIn (map entry_of runs.now))) }
{
    let mut text = List::new(alloc);
    text.append(b"runs ")?;
    append_u64(runs.len() as u64, &mut text)?;
    text.append(b"\n")?;
    append_runs(alloc, runs, &mut text)?;
    Ok(text)
}

fn append_runs(alloc: Global, runs: &[Kept], to: &mut Bytes) -> Result<(), ErrandErr>
    ensures got { OnOk result (GotRuns (map entry_of runs.now) to.old to.new) }
    ensures stops { IfErr result (Refuses (IsBadIn (map entry_of runs.now))) }
{
    for run in runs {
        let report = report_of(alloc, &run.name, run.report.as_slice())?;
        append_run(&run.name, &report, to)?;
    }
    Ok(())
}
