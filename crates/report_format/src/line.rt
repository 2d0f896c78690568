//! A line of a report, read from its bytes.

ghost use Rattle.std.specs.Prelude.{◌≡◌, ◌^◌};
ghost use Rattle.std.specs.Option.{option_map};
ghost use Rattle.desk_values.specs.Reading.{Reads, number_below};
ghost use Rattle.capture_format.specs.Inside.Fields.{two_of};
ghost use Rattle.report_format.specs.Inside.Reading.{call_of, class_named, count_of, other_line_of, report_fields_of, report_line_behind, report_line_of};

use desk_values::fields::{cut, read_u32, read_u64};
use desk_values::{ReadErr, find_word};
use replay_history::{Class, Line};

/// A line of a report, without its line feed.
#[derive(Clone, Copy)]
pub enum ReportLine {
    /// The first line.
    Head,
    /// How many calls there were.
    Calls(u64),
    /// How many there were of a class.
    Count(Class, u64),
    /// A call that differs.
    Call(Line),
    /// The last line.
    End,
}

/// The line that the bytes spell, without its line feed. `Bad` where they spell none.
pub(crate) fn read_report_line(bytes: &[u8]) -> Result<ReportLine, ReadErr>
    ensures { Reads result (report_line_of bytes.now) }
{
    line_in(bytes).ok_or(ReadErr::Bad)
}

#[tactic(auto, unfolding(crate::specs::Inside::Reading::report_line_of))]
fn line_in(bytes: &[u8]) -> Option<ReportLine>
    ensures { result ≡ report_line_of bytes.now }
{
    if bytes == b"report 1".as_slice() {
        Some(ReportLine::Head)
    } else if bytes == b"end".as_slice() {
        Some(ReportLine::End)
    } else {
        read_fields(bytes)
    }
}

#[tactic(auto, unfolding(crate::specs::Inside::Reading::report_fields_of))]
fn read_fields(bytes: &[u8]) -> Option<ReportLine>
    ensures { result ≡ report_fields_of bytes.now }
{
    let (word, rest) = cut(bytes, b' ')?;
    read_behind(word, rest)
}

// The line with this first field.
#[tactic(auto, unfolding(crate::specs::Inside::Reading::report_line_behind))]
fn read_behind(word: &[u8], rest: &[u8]) -> Option<ReportLine>
    ensures { result ≡ report_line_behind word.now rest.now }
{
    if word == b"calls".as_slice() {
        Some(ReportLine::Calls(read_u64(rest)?))
    } else {
        read_other(word, rest)
    }
}

#[tactic(auto, unfolding(crate::specs::Inside::Reading::other_line_of, crate::specs::Inside::Reading::count_or_call))]
fn read_other(word: &[u8], rest: &[u8]) -> Option<ReportLine>
    ensures { result ≡ other_line_of word.now rest.now }
{
    match find_word(word) {
        Some(class) => read_count(class, rest),
        None => read_call(word, rest),
    }
}

#[tactic(auto, unfolding(crate::specs::Inside::Reading::count_of))]
fn read_count(class: Class, bytes: &[u8]) -> Option<ReportLine>
    ensures { result ≡ count_of class bytes.now }
{
    Some(ReportLine::Count(class, read_u64(bytes)?))
}

#[tactic(auto, unfolding(crate::specs::Inside::Reading::call_of))]
fn read_call(word: &[u8], rest: &[u8]) -> Option<ReportLine>
    ensures { result ≡ call_of word.now rest.now }
{
    let stamp = read_u32(word)?;
    let (session, (place, class)) = read_place(rest)?;
    Some(ReportLine::Call(Line {
        stamp,
        session,
        place,
        class,
    }))
}

// A session, a place in it, and a class.
#[tactic(auto, unfolding(capture_format::specs::Inside::Fields::two_of))]
fn read_place(bytes: &[u8]) -> Option<(u32, (u32, Class))>
    ensures { result ≡ two_of 32 (number_below (2 ^ 32)) (two_of 32 (number_below (2 ^ 32)) class_named) bytes.now }
{
    let (session, rest) = cut(bytes, b' ')?;
    Some((read_u32(session)?, read_place_and_class(rest)?))
}

#[tactic(auto, unfolding(capture_format::specs::Inside::Fields::two_of))]
fn read_place_and_class(bytes: &[u8]) -> Option<(u32, Class)>
    ensures { result ≡ two_of 32 (number_below (2 ^ 32)) class_named bytes.now }
{
    let (place, class) = cut(bytes, b' ')?;
    Some((read_u32(place)?, find_word(class)?))
}
