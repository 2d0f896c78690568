//! The texts that a replay leaves.

ghost use Rattle.std.specs.Prelude.{◌≡◌, ◌++◌, IfOk, OnOk, OnErr};
ghost use Rattle.std.specs.List.{flat_map};
ghost use Rattle.replay_history.specs.Class.{class_word};
ghost use Rattle.desk_values.specs.declared.capture.Event.TheVariants.{Start};
ghost use Rattle.replay_history.specs.Texts.{count_line, counts_text, error_counts, event_text, journal_text, line, line_text, other_counts, place_text, report_text, row_counts, row_text, tables_text};

use capture_format::{append_left, append_reply};
use desk_values::fields::append_u64;
use desk_values::{Bytes, Event, History, Image, Images, List, Memory, Word};
use replay_history::{Class, Line, Mode, Report};
use std::alloc::Global;

/// The text of a history: its mode, and a line for each event.
pub fn journal_text(alloc: Global, mode: Mode, history: &History) -> Result<Bytes, Memory>
    ensures { IfOk result (λ text. text ≡ journal_text mode history.now.items) }
{
    let mut text = List::new(alloc);
    text.append(b"journal 1 ")?;
    text.append(mode.word().as_bytes())?;
    text.append(b"\n")?;
    append_events(history.as_slice(), &mut text)?;
    text.append(b"end\n")?;
    Ok(text)
}

/// The text of a report: how many calls there were, how many of each class, and a line for each call that differs.
pub fn report_text(alloc: Global, r: &Report) -> Result<Bytes, Memory>
    ensures { IfOk result (λ text. text ≡ report_text r.now) }
{
    let mut text = List::new(alloc);
    text.append(b"report 1\n")?;
    append_count("calls", r.calls, &mut text)?;
    append_counts(&r.counts, &mut text)?;
    append_lines(r.lines.as_slice(), &mut text)?;
    text.append(b"end\n")?;
    Ok(text)
}

/// The text of committed rows, a line each.
pub fn tables_text(alloc: Global, rows: &Images) -> Result<Bytes, Memory>
    ensures { IfOk result (λ text. text ≡ tables_text rows.now) }
{
    let mut text = List::new(alloc);
    text.append(b"tables 1\n")?;
    append_rows(rows.as_slice(), &mut text)?;
    text.append(b"end\n")?;
    Ok(text)
}

fn append_events(events: &[Event], to: &mut Bytes) -> Result<(), Memory>
    ensures { OnOk result (to.new ≡ to.old ++ flat_map (λ event. line (event_text event)) events.now) }
{
    for event in events {
        append_event(event, to)?;
    }
    Ok(())
}

fn append_event(event: &Event, to: &mut Bytes) -> Result<(), Memory>
    ensures { OnOk result (to.new ≡ to.old ++ line (event_text event.now)) }
{
    match event {
        Event::Start(stamp, pause) => append_start(*stamp, *pause, to),
        Event::Answer(stamp, reply) => {
            to.append(b"a ")?;
            append_u64(u64::from(*stamp), to)?;
            to.append(b" ")?;
            append_reply(reply, to)?;
            to.append(b"\n")
        }
    }
}

fn append_start(stamp: u32, pause: u64, to: &mut Bytes) -> Result<(), Memory>
    ensures { OnOk result (to.new ≡ to.old ++ line (event_text (Start stamp pause))) }
{
    to.append(b"s ")?;
    append_u64(u64::from(stamp), to)?;
    to.append(b" ")?;
    append_u64(pause, to)?;
    to.append(b"\n")
}

/// A word and a number.
fn append_count(word: &str, count: u64, to: &mut Bytes) -> Result<(), Memory>
    ensures { OnOk result (to.new ≡ to.old ++ count_line word.now count) }
{
    to.append(word.as_bytes())?;
    to.append(b" ")?;
    append_u64(count, to)?;
    to.append(b"\n")
}

fn append_class(class: Class, count: u64, to: &mut Bytes) -> Result<(), Memory>
    ensures { OnOk result (to.new ≡ to.old ++ count_line (class_word class) count) }
{
    append_count(class.word(), count, to)
}

fn append_counts(counts: &[u64; 9], to: &mut Bytes) -> Result<(), Memory>
    ensures { OnOk result (to.new ≡ to.old ++ counts_text counts.now) }
{
    append_error_counts(counts, to)?;
    append_row_counts(counts, to)?;
    append_other_counts(counts, to)?;
    Ok(())
}

fn append_error_counts(counts: &[u64; 9], to: &mut Bytes) -> Result<(), Memory>
    ensures { OnOk result (to.new ≡ to.old ++ error_counts counts.now) }
{
    append_class(Class::Same, counts[0], to)?;
    append_class(Class::NewError, counts[1], to)?;
    append_class(Class::GoneError, counts[2], to)?;
    append_class(Class::MutatedError, counts[3], to)?;
    Ok(())
}

fn append_row_counts(counts: &[u64; 9], to: &mut Bytes) -> Result<(), Memory>
    ensures { OnOk result (to.new ≡ to.old ++ row_counts counts.now) }
{
    append_class(Class::RowsModified, counts[4], to)?;
    append_class(Class::RowsFetched, counts[5], to)?;
    append_class(Class::RowContents, counts[6], to)?;
    Ok(())
}

fn append_other_counts(counts: &[u64; 9], to: &mut Bytes) -> Result<(), Memory>
    ensures { OnOk result (to.new ≡ to.old ++ other_counts counts.now) }
{
    append_class(Class::Images, counts[7], to)?;
    append_class(Class::Shape, counts[8], to)?;
    Ok(())
}

fn append_lines(lines: &[Line], to: &mut Bytes) -> Result<(), Memory>
    ensures { OnOk result (to.new ≡ to.old ++ flat_map (λ l. line (line_text l)) lines.now) }
{
    for line in lines {
        append_line(*line, to)?;
    }
    Ok(())
}

fn append_line(differing: Line, to: &mut Bytes) -> Result<(), Memory>
    ensures { OnOk result (to.new ≡ to.old ++ line (line_text differing)) }
{
    append_place(differing, to)?;
    to.append(b" ")?;
    to.append(differing.class.word().as_bytes())?;
    to.append(b"\n")
}

/// The stamp, the session and the place.
fn append_place(differing: Line, to: &mut Bytes) -> Result<(), Memory>
    ensures { OnOk result (to.new ≡ to.old ++ place_text differing) }
{
    append_u64(u64::from(differing.stamp), to)?;
    to.append(b" ")?;
    append_u64(u64::from(differing.session), to)?;
    to.append(b" ")?;
    append_u64(u64::from(differing.place), to)
}

fn append_rows(rows: &[Image], to: &mut Bytes) -> Result<(), Memory>
    ensures { OnOk result (to.new ≡ to.old ++ flat_map (λ image. line (row_text image)) rows.now) }
{
    for row in rows {
        append_row(row, to)?;
    }
    Ok(())
}

fn append_row(row: &Image, to: &mut Bytes) -> Result<(), Memory>
    ensures { OnOk result (to.new ≡ to.old ++ line (row_text row.now)) }
{
    append_u64(row.row, to)?;
    to.append(b" ")?;
    append_u64(u64::from(row.table), to)?;
    to.append(b" ")?;
    append_left(&row.left, to)?;
    to.append(b"\n")
}
