//! An errand to a keeper.

ghost use Rattle.std.specs.Prelude.{◌≡◌, IfErr, IfOk};
ghost use Rattle.std.specs.List.{list_any};
ghost use Rattle.register_work.specs.Errand.{IsAccepted, IsAnswered, IsCompared, IsListed, IsNotDone, IsRegistered, TellsDifferences, is_news};
ghost use Rattle.register_work.specs.Keeping.{keeping};
ghost use Rattle.register_work.specs.declared.errand.Errand.TheVariants.{Accept, Compare, Register, Runs};
ghost use Rattle.register_work.specs.declared.unkept.Unkept.TheVariants.{OtherCapture};

use crate::errand::{Answer, Errand, ErrandErr};
use crate::lines::{accepted_line, comparison_text, registered_line};
use crate::reading::{bytes_of, report_of, runs_text};
use crate::unkept::Unkept;
use desk_values::{Bytes, Copied, Memory, Txt};
use replay_history::{Class, Report};
use run_register::{AcceptList, Difference, Keeper, RegErr, compare, register};
use std::alloc::Global;

/// Does an errand to a keeper, and answers what is printed.
///
/// Causes are tested in the order of their statuses, and a first run goes before the second. What is not done leaves all as it
/// was.
pub fn do_errand<K: Keeper>(
    alloc: Global,
    errand: &Errand,
    keeper: &mut K,
) -> Result<Answer, ErrandErr>
    ensures done { IfOk result (IsAnswered errand.now (keeping (K.account keeper.old) (K.account keeper.new))) }
    ensures fails { IfErr result (IsNotDone errand.now (keeping (K.account keeper.old) (K.account keeper.new))) }
    ensures closes { (K.account keeper.new).closes ≡ (K.account keeper.old).closes }
{
    match errand {
        Errand::Register(name, bytes, report) => keep_run(alloc, name, bytes, report, keeper),
        Errand::Runs => list_runs(alloc, keeper),
        Errand::Accept(name, stamp, class) => accept_one(alloc, name, *stamp, *class, keeper),
        Errand::Compare(a, b) => compare_runs(alloc, a, b, keeper),
    }
}

// The line is made first: a run that is kept is told.
fn keep_run<K: Keeper>(
    alloc: Global,
    name: &Txt,
    bytes: &Bytes,
    report: &Report,
    keeper: &mut K,
) -> Result<Answer, ErrandErr>
    ensures done { IfOk result (IsRegistered name.now bytes.now report.now (keeping (K.account keeper.old) (K.account keeper.new))) }
    ensures fails { IfErr result (IsNotDone (Register name.now bytes.now report.now) (keeping (K.account keeper.old) (K.account keeper.new))) }
    ensures closes { (K.account keeper.new).closes ≡ (K.account keeper.old).closes }
{
    let text = registered_line(alloc, name, report)?;
    match register(keeper, name, bytes.as_slice()) {
        Ok(_) => Ok(Answer { text, news: false }),
        Err(RegErr::Other { .. }) => Err(ErrandErr::NotDone(Unkept::OtherRun(name.copy()?))),
        Err(RegErr::Failed) => Err(ErrandErr::Failed),
        Err(RegErr::Memory) => Err(ErrandErr::Memory),
    }
}

fn list_runs<K: Keeper>(alloc: Global, keeper: &mut K) -> Result<Answer, ErrandErr>
    ensures done { IfOk result (IsListed (keeping (K.account keeper.old) (K.account keeper.new))) }
    ensures fails { IfErr result (IsNotDone Runs (keeping (K.account keeper.old) (K.account keeper.new))) }
    ensures closes { (K.account keeper.new).closes ≡ (K.account keeper.old).closes }
{
    let runs = keeper.all()?;
    let text = runs_text(alloc, runs.as_slice())?;
    Ok(Answer { text, news: false })
}

// The line is made first: what is accepted is told.
fn accept_one<K: Keeper>(
    alloc: Global,
    name: &Txt,
    stamp: u64,
    class: Class,
    keeper: &mut K,
) -> Result<Answer, ErrandErr>
    ensures done { IfOk result (IsAccepted name.now stamp class (keeping (K.account keeper.old) (K.account keeper.new))) }
    ensures fails { IfErr result (IsNotDone (Accept name.now stamp class) (keeping (K.account keeper.old) (K.account keeper.new))) }
    ensures closes { (K.account keeper.new).closes ≡ (K.account keeper.old).closes }
{
    let bytes = bytes_of(name, keeper)?;
    let report = report_of(alloc, name, bytes.as_slice())?;
    if stamp >= report.calls {
        return Err(ErrandErr::NotDone(Unkept::NoCall(stamp)));
    }
    let text = accepted_line(alloc, name, stamp, class)?;
    keeper.accept(name, stamp as u32, class as u32)?;
    Ok(Answer { text, news: false })
}

fn compare_runs<K: Keeper>(
    alloc: Global,
    a: &Txt,
    b: &Txt,
    keeper: &mut K,
) -> Result<Answer, ErrandErr>
    ensures done { IfOk result (IsCompared a.now b.now (keeping (K.account keeper.old) (K.account keeper.new))) }
    ensures fails { IfErr result (IsNotDone (Compare a.now b.now) (keeping (K.account keeper.old) (K.account keeper.new))) }
    ensures closes { (K.account keeper.new).closes ≡ (K.account keeper.old).closes }
{
    let first_bytes = bytes_of(a, keeper)?;
    let second_bytes = bytes_of(b, keeper)?;
    let first = report_of(alloc, a, first_bytes.as_slice())?;
    let second = report_of(alloc, b, second_bytes.as_slice())?;
    if first.calls != second.calls {
        return Err(other_capture(a, first.calls, b, second.calls)?);
    }
    let accepted = keeper.accepted(a)?;
    Ok(compared(alloc, a, b, &first, &second, &accepted)?)
}

fn other_capture(a: &Txt, n: u64, b: &Txt, m: u64) -> Result<ErrandErr, Memory>
    ensures { IfOk result (λ error. error ≡ ErrandErr.NotDone (OtherCapture a.now n b.now m)) }
{
    Ok(ErrandErr::NotDone(Unkept::OtherCapture(a.copy()?, n, b.copy()?, m)))
}

// What differs between the two.
fn compared(
    alloc: Global,
    a: &Txt,
    b: &Txt,
    first: &Report,
    second: &Report,
    accepted: &AcceptList,
) -> Result<Answer, Memory>
    ensures { IfOk result (TellsDifferences a.now b.now first.now.lines second.now.lines accepted.now) }
{
    let found = compare(&first.lines, &second.lines, accepted)?;
    Ok(Answer {
        text: comparison_text(alloc, a, b, &found)?,
        news: has_news(found.as_slice()),
    })
}

fn has_news(found: &[Difference]) -> bool
    ensures { result ≡ list_any is_news found.now }
{
    found.iter().any(|difference| is_news(difference))
}

fn is_news(difference: &Difference) -> bool
    ensures { result ≡ is_news difference.now }
{
    match difference {
        Difference::New(_) => true,
        Difference::Gone(_) => false,
        Difference::Changed(_, _) => true,
    }
}
