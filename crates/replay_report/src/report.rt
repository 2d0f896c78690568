//! The report on a history.

ghost use Rattle.std.specs.Prelude.{◌≡◌, ◌++◌, ◌<◌, None, Some, IfOk, OnOk, length, map, replicate, slice_set, count_by};
ghost use Rattle.id_pairs.specs.Pairs.{all_new, learnt};
ghost use Rattle.replay_history.specs.Gap.{IsStamped};
ghost use Rattle.replay_history.specs.History.{AnswersAll};
ghost use Rattle.remap_ids.specs.IdMap.{start_pairs};
ghost use Rattle.replay_job.specs.Job.{IsReplayable, seen};
ghost use Rattle.replay_job.specs.Runs.{IsCompleteFor, IsLegalFor, Stage, gained};
ghost use Rattle.divergence.specs.Class.{class_between};
ghost use Rattle.replay_report.specs.Report.{counts_of, difference, heard_report_in, is_class, report_in};
ghost use Rattle.replay_report.specs.Inside.Written.{differences, noted, walked};

use desk_schema::Start;
use desk_values::{Captured, Event, History, List, Memory, Reply};
use divergence::class_of;
use remap_ids::IdMap;
use replay_history::{Class, Line, Lines, Report};
use replay_job::Job;
use std::alloc::Global;

/// The report on a whole replay of a job: how many calls there were, how many of each class, and a line for each call that
/// differs, by stamp. The class of a call goes by the map of ids just behind its own answer.
pub fn report_of(alloc: Global, job: &Job, history: &History) -> Result<Report, Memory>
    requires replayable { IsReplayable (seen job.now) }
    requires complete { (last : Stage) × IsCompleteFor (seen job.now) history.now.items last }
    ensures { IfOk result (λ report. report ≡ report_in (seen job.now) history.now.items) }
{
    reported(alloc, job, history)
}

/// The same of replies that another server gave, where the first pair of an id stays. Of a whole replay on a desk's own server it
/// is the same report.
pub fn report_heard(alloc: Global, job: &Job, history: &History) -> Result<Report, Memory>
    requires replayable { IsReplayable (seen job.now) }
    requires legal { IsLegalFor (seen job.now) history.now.items }
    requires whole { AnswersAll (seen job.now).calls history.now.items }
    ensures { IfOk result (λ report. report ≡ heard_report_in (seen job.now) history.now.items) }
{
    reported(alloc, job, history)
}

// The report on a history of calls that stand by stamp.
fn reported(alloc: Global, job: &Job, history: &History) -> Result<Report, Memory>
    requires { IsStamped job.now.calls.items }
    ensures { IfOk result (λ report. report ≡ heard_report_in (seen job.now) history.now.items) }
{
    let calls = job.calls.as_slice();
    let classes = classes_of(alloc, &job.start, calls, history.as_slice())?;
    let lines = lines_of(alloc, calls, classes.as_slice())?;
    Ok(Report {
        calls: calls.len() as u64,
        counts: counts_of(classes.as_slice()),
        lines,
    })
}

// The class of each call, by stamp.
fn classes_of(
    alloc: Global,
    start: &Start,
    calls: &[Captured],
    events: &[Event],
) -> Result<Vec<Option<Class>>, Memory>
    ensures count { IfOk result (λ classes. length classes.items ≡ length calls.now) }
    ensures classes { IfOk result
        (λ classes. classes.items ≡ walked calls.now (start_pairs start.now) events.now (replicate (length calls.now) None)) }
{
    let mut classes = no_classes(alloc, calls.len())?;
    let mut map = IdMap::from_start(alloc, start)?;
    for event in events {
        note_event(alloc, calls, event, &mut map, &mut classes)?;
    }
    Ok(classes)
}

// No class yet for each of as many calls.
fn no_classes(alloc: Global, count: usize) -> Result<Vec<Option<Class>>, Memory>
    ensures { IfOk result (λ classes. classes.items ≡ replicate count None) }
{
    let classes = vec![in alloc; None; count]?;
    Ok(classes)
}

// Learns the pairs that an event gives, and then notes the class of the call that it answers.
fn note_event(
    alloc: Global,
    calls: &[Captured],
    event: &Event,
    map: &mut IdMap,
    classes: &mut Vec<Option<Class>>,
) -> Result<(), Memory>
    requires count { length classes.old.items ≡ length calls.now }
    ensures count { OnOk result (length classes.new.items ≡ length calls.now) }
    ensures pairs { OnOk result (map.new.pairs ≡ all_new map.old.pairs (gained calls.now event.now)) }
    ensures classes { OnOk result
        (classes.new.items ≡ noted calls.now (all_new map.old.pairs (gained calls.now event.now)) event.now classes.old.items) }
{
    let Event::Answer(stamp, reply) = event else {
        return Ok(());
    };
    let stamp = *stamp as usize;
    match calls.get(stamp) {
        Some(call) => note_class(alloc, stamp, &call.reply, reply, map, classes),
        None => Ok(()),
    }
}

// Learns the pairs of the two replies to the call with this stamp, and then notes its class.
fn note_class(
    alloc: Global,
    stamp: usize,
    captured: &Reply,
    replayed: &Reply,
    map: &mut IdMap,
    classes: &mut Vec<Option<Class>>,
) -> Result<(), Memory>
    requires within { stamp < length classes.old.items }
    ensures pairs { OnOk result (map.new.pairs ≡ all_new map.old.pairs (learnt captured.now replayed.now)) }
    ensures classes { OnOk result
        (classes.new.items
        ≡ slice_set classes.old.items stamp
        (Some (class_between (all_new map.old.pairs (learnt captured.now replayed.now)) captured.now replayed.now))) }
{
    map.learn_fresh(captured, replayed)?;
    classes[stamp] = Some(class_of(alloc, map, captured, replayed)?);
    Ok(())
}

// How many calls have each class, in the order of the classes.
fn counts_of(classes: &[Option<Class>]) -> [u64; 9]
    ensures { result ≡ counts_of classes.now }
{
    [
        count_of(classes, Class::Same),
        count_of(classes, Class::NewError),
        count_of(classes, Class::GoneError),
        count_of(classes, Class::MutatedError),
        count_of(classes, Class::RowsModified),
        count_of(classes, Class::RowsFetched),
        count_of(classes, Class::RowContents),
        count_of(classes, Class::Images),
        count_of(classes, Class::Shape),
    ]
}

fn count_of(classes: &[Option<Class>], class: Class) -> u64
    ensures { result ≡ count_by (is_class class) classes.now }
{
    let mut count = 0;
    for other in classes {
        if is_class(*other, class) {
            count += 1;
        }
    }
    count
}

fn is_class(other: Option<Class>, class: Class) -> bool
    ensures { result ≡ is_class class other }
{
    match other {
        Some(other) => other as u8 == class as u8,
        None => false,
    }
}

// A line for each call that differs.
fn lines_of(alloc: Global, calls: &[Captured], classes: &[Option<Class>]) -> Result<Lines, Memory>
    requires { length classes.now ≡ length calls.now }
    ensures { IfOk result (λ lines. lines ≡ differences calls.now classes.now) }
{
    let mut lines = List::new(alloc);
    for i in 0..calls.len() {
        push_difference(&calls[i], classes[i], &mut lines)?;
    }
    Ok(lines)
}

fn push_difference(call: &Captured, class: Option<Class>, to: &mut Lines) -> Result<(), Memory>
    ensures { OnOk result (to.new ≡ to.old ++ difference call.now class) }
{
    match class {
        Some(class) if class as u8 != Class::Same as u8 => to.push(Line {
            stamp: call.stamp,
            session: call.session,
            place: call.place,
            class,
        }),
        _ => Ok(()),
    }
}
