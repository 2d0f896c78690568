//! The transaction of a call: the calls of its session behind the last end before it, up to its own end.

ghost use Rattle.std.specs.Prelude.{◌≡◌, ◌++◌, IfOk, OnOk};
ghost use Rattle.std.specs.List.{flat_map};
ghost use Rattle.replay_show.specs.Lines.{ended_shown, extent_front, extent_line, last_call, step_front, step_line, step_shown, transaction_line, transaction_lines};
ghost use Rattle.replay_show.specs.Transactions.{behind_ends, is_end, is_rollback, is_rollback_plan, transaction_of, up_to_end};
ghost use Rattle.sql_reader.specs.Reading.{statement_of};

use crate::one_call::class_at;
use crate::readable::append_counted;
use crate::replies::append_call;
use desk_values::fields::append_u64;
use desk_values::{Bytes, Call, Captured, Copied, List, Memory, Outcome, Txt, Word};
use replay_history::{Class, Line};
use sql_reader::{SqlErr, Statement, read_statement};
use std::alloc::Global;

/// Appends the lines of the transaction of a call, with the classes that these lines of a report give its calls.
pub(crate) fn append_transaction(
    alloc: Global,
    calls: &[Captured],
    call: &Captured,
    lines: &[Line],
    to: &mut Bytes,
) -> Result<(), Memory>
    ensures { OnOk result (to.new ≡ to.old ++ transaction_lines lines.now (transaction_of calls.now call.now.session call.now.stamp)) }
{
    let transaction = transaction_of(alloc, calls, call.session, call.stamp)?;
    append_lines(alloc, transaction.as_slice(), lines, to)
}

#[tactic(auto, unfolding(crate::specs::Lines::transaction_lines))]
fn append_lines(
    alloc: Global,
    transaction: &[Captured],
    lines: &[Line],
    to: &mut Bytes,
) -> Result<(), Memory>
    ensures { OnOk result (to.new ≡ to.old ++ transaction_lines lines.now transaction.now) }
{
    match transaction {
        [first, others @ ..] => {
            append_extent(alloc, first, others, to)?;
            append_steps(transaction, lines, to)
        }
        [] => Ok(()),
    }
}

// The calls of the transaction.
fn transaction_of(
    alloc: Global,
    calls: &[Captured],
    session: u32,
    stamp: u32,
) -> Result<List<Captured>, Memory>
    ensures { IfOk result (λ found. found ≡ transaction_of calls.now session stamp) }
{
    let mut found = behind_ends(alloc, calls, session, stamp)?;
    append_up_to_end(alloc, calls, session, stamp, &mut found)?;
    Ok(found)
}

// Those of the session before the stamp, behind the last end among them.
fn behind_ends(
    alloc: Global,
    calls: &[Captured],
    session: u32,
    stamp: u32,
) -> Result<List<Captured>, Memory>
    ensures { IfOk result (λ found. found ≡ behind_ends session stamp calls.now) }
{
    let mut found = List::new(alloc);
    for call in calls {
        if call.session == session && call.stamp < stamp {
            if is_end(alloc, call)? {
                found = List::new(alloc);
            } else {
                found.push(call.copy()?)?;
            }
        }
    }
    Ok(found)
}

// Those of the session from the stamp on, up to the first end, with it.
#[tactic(auto, using(crate::proofs::Going::later_end, crate::proofs::Going::later_on, crate::proofs::Going::later_past, crate::proofs::Going::later_all))]
fn append_up_to_end(
    alloc: Global,
    calls: &[Captured],
    session: u32,
    stamp: u32,
    to: &mut List<Captured>,
) -> Result<(), Memory>
    ensures { OnOk result (to.new ≡ to.old ++ up_to_end session stamp calls.now) }
{
    for call in calls {
        if call.session == session && stamp <= call.stamp {
            to.push(call.copy()?)?;
            if is_end(alloc, call)? {
                return Ok(());
            }
        }
    }
    Ok(())
}

// Whether the call ended a transaction, as it was captured.
fn is_end(alloc: Global, call: &Captured) -> Result<bool, Memory>
    ensures { IfOk result (λ ends. ends ≡ is_end call.now) }
{
    match call.reply.outcome {
        Outcome::Committed(_) | Outcome::Connected | Outcome::Disconnected => Ok(true),
        Outcome::RolledBack => is_rollback(alloc, &call.call),
        _ => Ok(false),
    }
}

// Whether it rolls its whole transaction back, and not to a savepoint.
fn is_rollback(alloc: Global, call: &Call) -> Result<bool, Memory>
    ensures { IfOk result (λ whole. whole ≡ is_rollback call.now) }
{
    match call {
        Call::Sql(text, _) => is_rollback_text(alloc, text),
        _ => Ok(false),
    }
}

fn is_rollback_text(alloc: Global, text: &Txt) -> Result<bool, Memory>
    ensures { IfOk result (λ whole. whole ≡ is_rollback_plan (statement_of text.now)) }
{
    match read_statement(alloc, text) {
        Ok(Statement::Rollback) => Ok(true),
        Ok(_) => Ok(false),
        Err(SqlErr::Syntax) => Ok(false),
        Err(SqlErr::Memory) => Err(Memory),
    }
}

// From which call to which, and how many.
#[tactic(auto, unfolding(crate::specs::Lines::transaction_line))]
fn append_extent(
    alloc: Global,
    first: &Captured,
    others: &[Captured],
    to: &mut Bytes,
) -> Result<(), Memory>
    ensures { OnOk result (to.new ≡ to.old ++ transaction_line first.now others.now) }
{
    append_extent_line(
        alloc,
        first,
        last_call(first, others),
        others.len() as u64 + 1,
        to,
    )
}

#[tactic(auto, unfolding(crate::specs::Lines::extent_line))]
fn append_extent_line(
    alloc: Global,
    first: &Captured,
    last: &Captured,
    count: u64,
    to: &mut Bytes,
) -> Result<(), Memory>
    ensures { OnOk result (to.new ≡ to.old ++ extent_line first.now last.now count) }
{
    append_extent_front(first, last, to)?;
    to.append(b", ")?;
    append_counted(count, " call", " calls", to)?;
    append_ended(alloc, last, to)?;
    to.append(b"\n")
}

#[tactic(auto, unfolding(crate::specs::Lines::extent_front))]
fn append_extent_front(first: &Captured, last: &Captured, to: &mut Bytes) -> Result<(), Memory>
    ensures { OnOk result (to.new ≡ to.old ++ extent_front first.now last.now) }
{
    to.append(b"transaction calls ")?;
    append_u64(u64::from(first.stamp), to)?;
    to.append(b" to ")?;
    append_u64(u64::from(last.stamp), to)
}

// The last of a call and those behind it.
fn last_call<'c>(first: &'c Captured, others: &'c [Captured]) -> &'c Captured
    ensures { result.now ≡ last_call first.now others.now }
{
    match others {
        [.., last] => last,
        [] => first,
    }
}

#[tactic(auto, unfolding(crate::specs::Lines::ended_shown))]
fn append_ended(alloc: Global, last: &Captured, to: &mut Bytes) -> Result<(), Memory>
    ensures { OnOk result (to.new ≡ to.old ++ ended_shown last.now) }
{
    if is_end(alloc, last)? {
        Ok(())
    } else {
        to.append(b", not ended")
    }
}

// A line for each call.
fn append_steps(calls: &[Captured], lines: &[Line], to: &mut Bytes) -> Result<(), Memory>
    ensures { OnOk result (to.new ≡ to.old ++ flat_map (step_line lines.now) calls.now) }
{
    for call in calls {
        append_step(call, lines, to)?;
    }
    Ok(())
}

#[tactic(auto, unfolding(crate::specs::Lines::step_line))]
fn append_step(call: &Captured, lines: &[Line], to: &mut Bytes) -> Result<(), Memory>
    ensures { OnOk result (to.new ≡ to.old ++ step_line lines.now call.now) }
{
    append_step_shown(call, class_at(lines, call.stamp), to)
}

#[tactic(auto, unfolding(crate::specs::Lines::step_shown))]
fn append_step_shown(call: &Captured, class: Class, to: &mut Bytes) -> Result<(), Memory>
    ensures { OnOk result (to.new ≡ to.old ++ step_shown call.now class) }
{
    append_step_front(call, to)?;
    to.append(class.word().as_bytes())?;
    to.append(b" ")?;
    append_call(&call.call, to)?;
    to.append(b"\n")
}

#[tactic(auto, unfolding(crate::specs::Lines::step_front))]
fn append_step_front(call: &Captured, to: &mut Bytes) -> Result<(), Memory>
    ensures { OnOk result (to.new ≡ to.old ++ step_front call.now) }
{
    to.append(b"step        ")?;
    append_u64(u64::from(call.stamp), to)?;
    to.append(b" ")
}
