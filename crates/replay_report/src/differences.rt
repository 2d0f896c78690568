//! The calls that differ, as comma-separated fields.

ghost use Rattle.std.specs.Prelude.{◌≡◌, ◌++◌, ◌<◌, ℕ, None, IfOk, OnOk, length, map, replicate, slice_index_or};
ghost use Rattle.std.specs.List.{flat_map, fold};
ghost use Rattle.std.specs.Option.{option_copied};
ghost use Rattle.std.specs.Fmt.{decimal};
ghost use Rattle.replay_report.specs.Differences.{captured_reply, csv_text, fields_of, head_fields, record_text, reply_field};
ghost use Rattle.replay_report.specs.Inside.Written.{IsBetween, slot_record, with_answer, written};

use capture_format::append_reply;
use csv::{Writer, WriterBuilder};
use desk_values::fields::append_u64;
use desk_values::{Bytes, Captured, Event, History, List, Memory, Reply, Word};
use replay_history::{Line, Report};
use replay_job::Job;
use std::alloc::Global;

/// The calls of a report's lines as comma-separated fields, a record each: where the call stands, its class, and its
/// captured and its replayed reply. A head stands first. A field is quoted where it holds a comma, a quote or the end of a
/// line, and a line feed ends each record. The field of a reply is empty where the job has no such call, or the history no
/// answer to it.
pub fn report_csv(alloc: Global, job: &Job, history: &History, r: &Report) -> Result<Bytes, Memory>
    ensures { IfOk result (λ bytes. bytes ≡ csv_text job.now.calls.items history.now.items r.now.lines) }
{
    let calls = job.calls.as_slice();
    let replies = replies_of(alloc, calls.len(), history.as_slice())?;
    let mut writer = WriterBuilder::new().from_writer(Vec::new(alloc));
    write_head(&mut writer)?;
    write_lines(
        alloc,
        r.lines.as_slice(),
        calls,
        replies.as_slice(),
        &mut writer,
    )?;
    bytes_of(writer)
}

// The replies to as many calls, by stamp.
fn replies_of<'a>(
    alloc: Global,
    count: usize,
    events: &'a [Event],
) -> Result<Vec<Option<&'a Reply>>, Memory>
    ensures { IfOk result (λ replies. map option_copied replies.items ≡ fold with_answer (replicate count None) events.now) }
{
    let mut replies = no_replies(alloc, count)?;
    for event in events {
        note(&mut replies, event);
    }
    Ok(replies)
}

// No reply yet to each of as many calls.
fn no_replies<'a>(alloc: Global, count: usize) -> Result<Vec<Option<&'a Reply>>, Memory>
    ensures count { IfOk result (λ replies. length replies.items ≡ count) }
    ensures none { IfOk result
        (λ replies. (k : ℕ) → k < length replies.items → option_copied (slice_index_or replies.items k None) ≡ None) }
{
    let replies = vec![in alloc; None; count]?;
    Ok(replies)
}

// Notes the reply of an answer. That to a call with another stamp is left out.
fn note<'a>(replies: &mut Vec<Option<&'a Reply>>, event: &'a Event)
    ensures { map option_copied replies.new.items ≡ with_answer (map option_copied replies.old.items) event.now }
{
    if let Event::Answer(stamp, reply) = event {
        let stamp = *stamp as usize;
        if stamp < replies.len() {
            replies[stamp] = Some(reply);
        }
    }
}

// The reply that a call had in the capture.
fn captured_reply(calls: &[Captured], stamp: u32) -> Option<&Reply>
    ensures { option_copied result ≡ captured_reply calls.now stamp }
{
    match calls.get(stamp as usize) {
        Some(call) => Some(&call.reply),
        None => None,
    }
}

fn replayed_reply<'a>(replies: &[Option<&'a Reply>], stamp: u32) -> Option<&'a Reply>
    ensures { option_copied result ≡ option_copied (slice_index_or replies.now stamp None) }
{
    match replies.get(stamp as usize) {
        Some(reply) => *reply,
        None => None,
    }
}

fn write_head(writer: &mut Writer<Vec<u8>>) -> Result<(), Memory>
    requires { IsBetween writer.old }
    ensures between { OnOk result (IsBetween writer.new) }
    ensures written { OnOk result (written writer.new ≡ written writer.old ++ record_text head_fields) }
{
    let fields: [&[u8]; 6] = [
        b"stamp",
        b"session",
        b"place",
        b"class",
        b"captured",
        b"replayed",
    ];
    write_fields(&fields, writer)
}

// A record for each line, where these are the calls and their replies by stamp.
fn write_lines(
    alloc: Global,
    lines: &[Line],
    calls: &[Captured],
    replies: &[Option<&Reply>],
    writer: &mut Writer<Vec<u8>>,
) -> Result<(), Memory>
    requires { IsBetween writer.old }
    ensures between { OnOk result (IsBetween writer.new) }
    ensures written { OnOk result (written writer.new ≡ written writer.old ++ flat_map (slot_record calls.now replies.now) lines.now) }
{
    for line in lines {
        let captured = captured_reply(calls, line.stamp);
        let replayed = replayed_reply(replies, line.stamp);
        write_line(alloc, *line, captured, replayed, writer)?;
    }
    Ok(())
}

fn write_line(
    alloc: Global,
    line: Line,
    captured: Option<&Reply>,
    replayed: Option<&Reply>,
    writer: &mut Writer<Vec<u8>>,
) -> Result<(), Memory>
    requires { IsBetween writer.old }
    ensures between { OnOk result (IsBetween writer.new) }
    ensures written { OnOk result
        (written writer.new ≡ written writer.old
        ++ record_text (fields_of line (option_copied captured.entry) (option_copied replayed.entry))) }
{
    let stamp = number_field(alloc, line.stamp)?;
    let session = number_field(alloc, line.session)?;
    let place = number_field(alloc, line.place)?;
    let captured = reply_field(alloc, captured)?;
    let replayed = reply_field(alloc, replayed)?;
    let fields = [
        stamp.as_slice(),
        session.as_slice(),
        place.as_slice(),
        line.class.word().as_bytes(),
        captured.as_slice(),
        replayed.as_slice(),
    ];
    write_fields(&fields, writer)
}

fn number_field(alloc: Global, number: u32) -> Result<Bytes, Memory>
    ensures { IfOk result (λ bytes. bytes ≡ decimal number) }
{
    let mut bytes = List::new(alloc);
    append_u64(u64::from(number), &mut bytes)?;
    Ok(bytes)
}

fn reply_field(alloc: Global, reply: Option<&Reply>) -> Result<Bytes, Memory>
    ensures { IfOk result (λ bytes. bytes ≡ reply_field (option_copied reply.entry)) }
{
    let mut bytes = List::new(alloc);
    if let Some(reply) = reply {
        append_reply(reply, &mut bytes)?;
    }
    Ok(bytes)
}

// Writes a record.
fn write_fields(fields: &[&[u8]], writer: &mut Writer<Vec<u8>>) -> Result<(), Memory>
    requires { IsBetween writer.old }
    ensures between { OnOk result (IsBetween writer.new) }
    ensures written { OnOk result (written writer.new ≡ written writer.old ++ record_text (map (λ field. field.now) fields.now)) }
{
    match writer.write_fields(fields) {
        Ok(()) => Ok(()),
        Err(_) => Err(Memory),
    }
}

fn bytes_of(writer: Writer<Vec<u8>>) -> Result<Bytes, Memory>
    ensures { IfOk result (λ bytes. bytes ≡ written writer) }
{
    match writer.into_inner() {
        Ok(bytes) => Ok(List::from_vec(bytes)),
        Err(_) => Err(Memory),
    }
}
