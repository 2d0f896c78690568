//! One call of a replay.

ghost use Rattle.std.specs.Prelude.{◌≡◌, ◌+◌, ◌<◌, ◌≤◌, ◌++◌, length, nat_eq, IfOk, OnOk, option_copied, option_map, slice_get, Some};
ghost use Rattle.std.specs.List.{find, list_any};
ghost use Rattle.replay_show.specs.Lines.{answered_line, asked_lines, before_shown, bind_line, bind_lines, call_lines, captured_line, cause_line, cause_lines, cause_sentence, class_at, class_line, class_lines, class_sentence, commit_at, commit_line, commit_named, follows_line, is_before, met_lines, moment_lines, replayed_line, reply_lines, said_lines, saw_line, seen_line, session_line, stamp_line, sure_line, sure_lines, text_line, times_line, waits_line, waits_shown};
ghost use Rattle.replay_history.specs.Capture.{binds_of};
ghost use Rattle.replay_show.specs.Shown.{HaveStamps, seen};

use crate::ids::append_ids;
use crate::journal::{answer_to, append_started};
use crate::readable::{Readable, append_counted};
use crate::replies::append_call;
use crate::shown::Shown;
use crate::transactions::append_transaction;
use desk_schema::Schema;
use desk_values::fields::append_u64;
use desk_values::{Bytes, Call, Captured, List, Memory, Reply, Stamps, Value, Word};
use divergence_cause::{Cause, CauseLine, CauseList};
use object_depends::{FactList, Needs};
use replay_history::{Class, Line, Mode};
use std::alloc::Global;

/// The lines of the call with this stamp.
pub fn call_lines(alloc: Global, shown: &Shown, stamp: u32) -> Result<Bytes, Memory>
    requires facts { length shown.now.facts ≤ 100000 }
    requires count { length shown.now.calls.items ≤ length shown.now.facts }
    requires stamps { HaveStamps shown.now.calls.items }
    requires stamp { stamp < length shown.now.calls.items }
    ensures { IfOk result (λ lines. Some lines ≡ option_map (call_lines (seen shown.now)) (slice_get shown.now.calls.items stamp)) }
{
    let call = &shown.calls.as_slice()[stamp as usize];
    let mut lines = List::new(alloc);
    append_call_lines(alloc, shown, call, &mut lines)?;
    Ok(lines)
}

#[tactic(auto, unfolding(crate::specs::Lines::call_lines))]
fn append_call_lines(
    alloc: Global,
    shown: &Shown,
    call: &Captured,
    to: &mut Bytes,
) -> Result<(), Memory>
    requires facts { length shown.now.facts ≤ 100000 }
    requires stamp { call.now.stamp < length shown.now.facts }
    ensures { OnOk result (to.new ≡ to.old ++ call_lines (seen shown.now) call.now) }
{
    let answer = answer_to(call.stamp, shown.run.history.as_slice());
    append_said(shown, call, &answer, to)?;
    append_met(alloc, shown, call, &answer, to)
}

// What it asked, how it differs, what it was answered, and when it was captured.
#[tactic(auto, unfolding(crate::specs::Lines::said_lines))]
fn append_said(
    shown: &Shown,
    call: &Captured,
    answer: &Option<(usize, &Reply)>,
    to: &mut Bytes,
) -> Result<(), Memory>
    ensures { OnOk result (to.new ≡ to.old ++ said_lines (seen shown.now) call.now (option_map (λ found. (found.0, found.1.now)) answer.now)) }
{
    let schema = shown.start.schema();
    append_asked(schema, call, to)?;
    append_class(shown, call.stamp, to)?;
    append_replies(schema, call, answer, to)?;
    append_moments(shown.calls.as_slice(), call, to)
}

// When it was replayed, and among which calls.
#[tactic(auto, unfolding(crate::specs::Lines::met_lines))]
fn append_met(
    alloc: Global,
    shown: &Shown,
    call: &Captured,
    answer: &Option<(usize, &Reply)>,
    to: &mut Bytes,
) -> Result<(), Memory>
    requires facts { length shown.now.facts ≤ 100000 }
    requires stamp { call.now.stamp < length shown.now.facts }
    ensures { OnOk result (to.new ≡ to.old ++ met_lines (seen shown.now) call.now (option_map (λ found. (found.0, found.1.now)) answer.now)) }
{
    let calls = shown.calls.as_slice();
    append_started(call.stamp, shown.run.history.as_slice(), to)?;
    append_answered(answer, to)?;
    append_follows(calls, call, to)?;
    append_waits(alloc, shown.run.mode, &shown.facts, call.stamp, to)?;
    append_transaction(alloc, calls, call, shown.run.report.lines.as_slice(), to)?;
    append_ids(alloc, shown, call, to)
}

// What was asked, and where.
#[tactic(auto, unfolding(crate::specs::Lines::asked_lines))]
fn append_asked(schema: &Schema, call: &Captured, to: &mut Bytes) -> Result<(), Memory>
    ensures { OnOk result (to.new ≡ to.old ++ asked_lines schema.now call.now) }
{
    append_stamp(call, to)?;
    append_session(call, to)?;
    append_text(&call.call, to)?;
    append_binds(schema, binds_of(&call.call), to)
}

#[tactic(auto, unfolding(crate::specs::Lines::stamp_line))]
fn append_stamp(call: &Captured, to: &mut Bytes) -> Result<(), Memory>
    ensures { OnOk result (to.new ≡ to.old ++ stamp_line call.now) }
{
    to.append(b"call        ")?;
    append_u64(u64::from(call.stamp), to)?;
    to.append(b"\n")
}

#[tactic(auto, unfolding(crate::specs::Lines::session_line))]
fn append_session(call: &Captured, to: &mut Bytes) -> Result<(), Memory>
    ensures { OnOk result (to.new ≡ to.old ++ session_line call.now) }
{
    to.append(b"session     ")?;
    append_u64(u64::from(call.session), to)?;
    to.append(b", its call ")?;
    append_u64(u64::from(call.place), to)?;
    to.append(b"\n")
}

#[tactic(auto, unfolding(crate::specs::Lines::text_line))]
fn append_text(call: &Call, to: &mut Bytes) -> Result<(), Memory>
    ensures { OnOk result (to.new ≡ to.old ++ text_line call.now) }
{
    to.append(b"text        ")?;
    append_call(call, to)?;
    to.append(b"\n")
}

/// The values of its binds.
pub(crate) fn binds_of(call: &Call) -> &[Value]
    ensures { result.now ≡ binds_of call.now }
{
    match call {
        Call::Sql(_, binds) => binds.as_slice(),
        _ => &[],
    }
}

#[tactic(auto, using(crate::proofs::Going::bind_more, crate::proofs::Going::binds_all))]
fn append_binds(schema: &Schema, values: &[Value], to: &mut Bytes) -> Result<(), Memory>
    ensures { OnOk result (to.new ≡ to.old ++ bind_lines schema.now 1 values.now) }
{
    for (i, value) in values.iter().enumerate() {
        append_bind(schema, i as u64 + 1, value, to)?;
    }
    Ok(())
}

#[tactic(auto, unfolding(crate::specs::Lines::bind_line))]
fn append_bind(schema: &Schema, n: u64, value: &Value, to: &mut Bytes) -> Result<(), Memory>
    ensures { OnOk result (to.new ≡ to.old ++ bind_line schema.now n value.now) }
{
    to.append(b"bind        :")?;
    append_u64(n, to)?;
    to.append(b" = ")?;
    value.append_to(schema, to)?;
    to.append(b"\n")
}

/// The class of the call with this stamp, by the lines of a report.
#[tactic(auto, unfolding(crate::specs::Lines::class_at))]
pub(crate) fn class_at(lines: &[Line], stamp: u32) -> Class
    ensures { result ≡ class_at lines.now stamp }
{
    match line_at(lines, stamp) {
        Some(line) => line.class,
        None => Class::Same,
    }
}

fn line_at(lines: &[Line], stamp: u32) -> Option<Line>
    ensures { result ≡ find (λ l. nat_eq l.stamp stamp) lines.now }
{
    lines.iter().copied().find(|line| line.stamp == stamp)
}

// How it differs, why, and whether it is sure.
#[tactic(auto, unfolding(crate::specs::Lines::class_lines))]
fn append_class(shown: &Shown, stamp: u32, to: &mut Bytes) -> Result<(), Memory>
    ensures { OnOk result (to.new ≡ to.old ++ class_lines (seen shown.now) stamp) }
{
    append_class_line(class_at(shown.run.report.lines.as_slice(), stamp), to)?;
    append_cause(&shown.run.causes, stamp, to)?;
    append_sure(&shown.run.reads, stamp, to)
}

#[tactic(auto, unfolding(crate::specs::Lines::class_line))]
fn append_class_line(class: Class, to: &mut Bytes) -> Result<(), Memory>
    ensures { OnOk result (to.new ≡ to.old ++ class_line class) }
{
    to.append(b"class       ")?;
    to.append(class.word().as_bytes())?;
    to.append(b": ")?;
    to.append(class_sentence(class).as_bytes())?;
    to.append(b"\n")
}

fn class_sentence(class: Class) -> &'static str
    ensures { result.now ≡ class_sentence class }
{
    match class {
        Class::Same => "as captured",
        Class::NewError => "it is refused, and was not",
        Class::GoneError => "it was refused, and is not",
        Class::MutatedError => "it was refused for one cause, and is for another",
        Class::RowsModified => "another number of rows was written",
        Class::RowsFetched => "another number of rows was read",
        Class::RowContents => "as many rows were read, but others",
        Class::Images => "the commit wrote other rows or values",
        Class::Shape => "the reply is of another kind",
    }
}

#[tactic(auto, unfolding(crate::specs::Lines::cause_lines))]
fn append_cause(causes: &Option<CauseList>, stamp: u32, to: &mut Bytes) -> Result<(), Memory>
    ensures { OnOk result (to.new ≡ to.old ++ cause_lines causes.now stamp) }
{
    match causes {
        Some(causes) => append_cause_line(cause_at(causes.as_slice(), stamp), to),
        None => Ok(()),
    }
}

fn cause_at(causes: &[CauseLine], stamp: u32) -> Option<CauseLine>
    ensures { result ≡ find (λ l. nat_eq l.stamp stamp) causes.now }
{
    causes.iter().copied().find(|line| line.stamp == stamp)
}

#[tactic(auto, unfolding(crate::specs::Lines::cause_line))]
fn append_cause_line(found: Option<CauseLine>, to: &mut Bytes) -> Result<(), Memory>
    ensures { OnOk result (to.new ≡ to.old ++ cause_line found) }
{
    let Some(found) = found else {
        return Ok(());
    };
    to.append(b"cause       ")?;
    to.append(found.cause.word().as_bytes())?;
    to.append(b": ")?;
    to.append(cause_sentence(found.cause).as_bytes())?;
    to.append(b"\n")
}

fn cause_sentence(cause: Cause) -> &'static str
    ensures { result.now ≡ cause_sentence cause }
{
    match cause {
        Cause::Timing => "its session met something else, or another call was sent",
        Cause::Upgrade => {
            "it met what it met in the capture, and was sent the same: the server answers otherwise"
        }
    }
}

#[tactic(auto, unfolding(crate::specs::Lines::sure_lines))]
fn append_sure(reads: &Option<Stamps>, stamp: u32, to: &mut Bytes) -> Result<(), Memory>
    ensures { OnOk result (to.new ≡ to.old ++ sure_lines reads.now stamp) }
{
    match reads {
        Some(stamps) => append_if_sure(is_among(stamps.as_slice(), stamp), to),
        None => Ok(()),
    }
}

fn is_among(stamps: &[u32], stamp: u32) -> bool
    ensures { result ≡ list_any (λ other. nat_eq other stamp) stamps.now }
{
    stamps.iter().any(|other| *other == stamp)
}

#[tactic(auto, unfolding(crate::specs::Lines::sure_line))]
fn append_if_sure(sure: bool, to: &mut Bytes) -> Result<(), Memory>
    ensures { OnOk result (to.new ≡ to.old ++ sure_line sure) }
{
    if sure {
        to.append(b"sure        a read that is sure to answer as captured\n")
    } else {
        Ok(())
    }
}

// What it was answered when it was captured, and when it was replayed.
#[tactic(auto, unfolding(crate::specs::Lines::reply_lines))]
fn append_replies(
    schema: &Schema,
    call: &Captured,
    answer: &Option<(usize, &Reply)>,
    to: &mut Bytes,
) -> Result<(), Memory>
    ensures { OnOk result (to.new ≡ to.old ++ reply_lines schema.now call.now (option_map (λ found. (found.0, found.1.now)) answer.now)) }
{
    append_captured(schema, &call.reply, to)?;
    append_replayed(schema, answer, to)
}

#[tactic(auto, unfolding(crate::specs::Lines::captured_line))]
fn append_captured(schema: &Schema, reply: &Reply, to: &mut Bytes) -> Result<(), Memory>
    ensures { OnOk result (to.new ≡ to.old ++ captured_line schema.now reply.now) }
{
    to.append(b"captured    ")?;
    reply.append_to(schema, to)?;
    to.append(b"\n")
}

#[tactic(auto, unfolding(crate::specs::Lines::replayed_line))]
fn append_replayed(
    schema: &Schema,
    answer: &Option<(usize, &Reply)>,
    to: &mut Bytes,
) -> Result<(), Memory>
    ensures { OnOk result (to.new ≡ to.old ++ replayed_line schema.now (option_map (λ found. (found.0, found.1.now)) answer.now)) }
{
    let Some((_, reply)) = answer else {
        return Ok(());
    };
    to.append(b"replayed    ")?;
    reply.append_to(schema, to)?;
    to.append(b"\n")
}

// When it was captured, and what it had seen.
#[tactic(auto, unfolding(crate::specs::Lines::moment_lines))]
fn append_moments(calls: &[Captured], call: &Captured, to: &mut Bytes) -> Result<(), Memory>
    ensures { OnOk result (to.new ≡ to.old ++ moment_lines calls.now call.now) }
{
    append_times(call, to)?;
    append_saw(calls, call.seen, to)?;
    append_commit(call.number, to)
}

#[tactic(auto, unfolding(crate::specs::Lines::times_line))]
fn append_times(call: &Captured, to: &mut Bytes) -> Result<(), Memory>
    ensures { OnOk result (to.new ≡ to.old ++ times_line call.now) }
{
    to.append(b"began       ")?;
    append_u64(call.began, to)?;
    to.append(b" us, ended ")?;
    append_u64(call.ended, to)?;
    to.append(b" us")?;
    to.append(b"\n")
}

#[tactic(auto, unfolding(crate::specs::Lines::saw_line))]
fn append_saw(calls: &[Captured], commits: u64, to: &mut Bytes) -> Result<(), Memory>
    ensures { OnOk result (to.new ≡ to.old ++ saw_line calls.now commits) }
{
    if commits == 0 {
        to.append(b"saw         no commit\n")
    } else {
        append_seen(calls, commits, to)
    }
}

#[tactic(auto, unfolding(crate::specs::Lines::seen_line))]
fn append_seen(calls: &[Captured], commits: u64, to: &mut Bytes) -> Result<(), Memory>
    ensures { OnOk result (to.new ≡ to.old ++ seen_line calls.now commits) }
{
    to.append(b"saw         ")?;
    append_counted(
        commits,
        " commit, the last is call ",
        " commits, the last is call ",
        to,
    )?;
    append_commit_stamp(calls, commits, to)?;
    to.append(b"\n")
}

// The stamp of the commit with a number.
fn append_commit_stamp(calls: &[Captured], number: u64, to: &mut Bytes) -> Result<(), Memory>
    ensures { OnOk result (to.new ≡ to.old ++ commit_named (commit_at calls.now number)) }
{
    match commit_at(calls, number) {
        Some(call) => append_u64(u64::from(call.stamp), to),
        None => Ok(()),
    }
}

fn commit_at(calls: &[Captured], number: u64) -> Option<&Captured>
    ensures { option_copied result ≡ commit_at calls.now number }
{
    calls.iter().find(|call| call.number == number)
}

#[tactic(auto, unfolding(crate::specs::Lines::commit_line))]
fn append_commit(number: u64, to: &mut Bytes) -> Result<(), Memory>
    ensures { OnOk result (to.new ≡ to.old ++ commit_line number) }
{
    if number == 0 {
        return Ok(());
    }
    to.append(b"commit      ")?;
    append_u64(number, to)?;
    to.append(b"\n")
}

#[tactic(auto, unfolding(crate::specs::Lines::answered_line))]
fn append_answered(answer: &Option<(usize, &Reply)>, to: &mut Bytes) -> Result<(), Memory>
    ensures { OnOk result (to.new ≡ to.old ++ answered_line (option_map (λ found. (found.0, found.1.now)) answer.now)) }
{
    let Some((n, _)) = answer else {
        return Ok(());
    };
    to.append(b"answered    event ")?;
    append_u64(*n as u64, to)?;
    to.append(b"\n")
}

// The call of its session before it.
#[tactic(auto, unfolding(crate::specs::Lines::follows_line))]
fn append_follows(calls: &[Captured], call: &Captured, to: &mut Bytes) -> Result<(), Memory>
    ensures { OnOk result (to.new ≡ to.old ++ follows_line calls.now call.now) }
{
    to.append(b"follows     ")?;
    append_before(call_before(calls, call), to)?;
    to.append(b"\n")
}

fn call_before<'c>(calls: &'c [Captured], call: &Captured) -> Option<&'c Captured>
    ensures { option_copied result ≡ find (is_before call.now) calls.now }
{
    calls.iter().find(|other| is_before(call, other))
}

#[tactic(auto, unfolding(crate::specs::Lines::before_shown))]
fn append_before(before: Option<&Captured>, to: &mut Bytes) -> Result<(), Memory>
    ensures { OnOk result (to.new ≡ to.old ++ before_shown (option_copied before.entry)) }
{
    match before {
        Some(before) => {
            to.append(b"call ")?;
            append_u64(u64::from(before.stamp), to)
        }
        None => to.append(b"nothing"),
    }
}

fn is_before(call: &Captured, other: &Captured) -> bool
    ensures { result ≡ is_before call.now other.now }
{
    other.session == call.session && u64::from(other.place) + 1 == u64::from(call.place)
}

// What its mode has it wait for beside that.
#[tactic(auto, unfolding(crate::specs::Lines::waits_line))]
fn append_waits(
    alloc: Global,
    mode: Mode,
    facts: &FactList,
    stamp: u32,
    to: &mut Bytes,
) -> Result<(), Memory>
    requires facts { length facts.now ≤ 100000 }
    requires stamp { stamp < length facts.now }
    ensures { OnOk result (to.new ≡ to.old ++ waits_line mode facts.now stamp) }
{
    let needs = Needs::of(alloc, facts, mode)?;
    let (count, last) = needs.count_last(stamp);
    to.append(b"waits       ")?;
    to.append(mode.word().as_bytes())?;
    to.append(b": ")?;
    append_required(count, last, to)?;
    to.append(b"\n")
}

fn append_required(count: u32, last: Option<u32>, to: &mut Bytes) -> Result<(), Memory>
    ensures { OnOk result (to.new ≡ to.old ++ waits_shown count last) }
{
    match last {
        Some(stamp) => {
            let calls = u64::from(count);
            append_counted(
                calls,
                " call, the last is call ",
                " calls, the last is call ",
                to,
            )?;
            append_u64(u64::from(stamp), to)
        }
        None => to.append(b"nothing more"),
    }
}
