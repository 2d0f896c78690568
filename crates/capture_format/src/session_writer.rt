//! Session files, written as bytes.

ghost use Rattle.std.specs.Prelude.{◌≡◌, ◌++◌, ◌∷◌, [], IfOk, OnOk};
ghost use Rattle.file_lines.specs.Form.{text_of};
ghost use Rattle.std.specs.Fmt.{decimal};
ghost use Rattle.desk_schema.specs.Schema.{IsVersion};
ghost use Rattle.capture_format.specs.SessionFile.{AreCallsOf, MayTellAll, call_line_text, last_lines, line_of, number_text, session_form, session_text};

use crate::call::append_call;
use crate::reply::append_reply;
use desk_values::fields::append_u64;
use desk_values::{Bytes, CallList, Captured, List, Memory};
use std::alloc::Global;

/// The one file of a session's calls and of this version, as [`read_session`](crate::read_session) reads it. It fails for want of
/// memory alone.
pub fn write_session(
    alloc: Global,
    calls: &CallList,
    session: u32,
    version: u32,
) -> Result<Bytes, Memory>
    requires calls { AreCallsOf session calls.now.items }
    requires version { IsVersion version }
    requires told { MayTellAll version calls.now.items }
    ensures { IfOk result (λ bytes. bytes ≡ session_text session version calls.now.items) }
{
    let mut text = List::new(alloc);
    text.append(b"session ")?;
    push_field(u64::from(version), &mut text)?;
    append_u64(u64::from(session), &mut text)?;
    text.push(b'\n')?;
    push_calls(calls.as_slice(), &mut text)?;
    Ok(text)
}

// The lines of the calls, and the last line.
fn push_calls(calls: &[Captured], to: &mut Bytes) -> Result<(), Memory>
    ensures { OnOk result (to.new ≡ to.old ++ text_of session_form (last_lines calls.now)) }
{
    for call in calls {
        push_call(call, to)?;
    }
    to.append(b"end\n")
}

// A call's line, with its line feed.
fn push_call(call: &Captured, to: &mut Bytes) -> Result<(), Memory>
    ensures { OnOk result (to.new ≡ to.old ++ (call_line_text (line_of call.now) ++ 10 ∷ [])) }
{
    push_numbers(call, to)?;
    append_call(&call.call, to)?;
    to.append(b" > ")?;
    append_reply(&call.reply, to)?;
    to.push(b'\n')?;
    Ok(())
}

// The numbers of a call, each with a space behind it.
fn push_numbers(call: &Captured, to: &mut Bytes) -> Result<(), Memory>
    ensures { OnOk result
        (to.new ≡ to.old
        ++ (decimal call.now.stamp
        ++ 32 ∷ (decimal call.now.began
        ++ 32 ∷
        (decimal call.now.ended ++ 32 ∷ (decimal call.now.seen ++ 32 ∷ (number_text call.now.number ++ 32 ∷ [])))))) }
{
    push_field(u64::from(call.stamp), to)?;
    push_field(call.began, to)?;
    push_field(call.ended, to)?;
    push_field(call.seen, to)?;
    push_commit_number(call.number, to)
}

// A number with a space behind it.
fn push_field(number: u64, to: &mut Bytes) -> Result<(), Memory>
    ensures { OnOk result (to.new ≡ to.old ++ (decimal number ++ 32 ∷ [])) }
{
    append_u64(number, to)?;
    to.push(b' ')
}

// A commit's number, or `-`, with a space behind it.
fn push_commit_number(number: u64, to: &mut Bytes) -> Result<(), Memory>
    ensures { OnOk result (to.new ≡ to.old ++ (number_text number ++ 32 ∷ [])) }
{
    if number == 0 {
        to.append(b"- ")
    } else {
        push_field(number, to)
    }
}
