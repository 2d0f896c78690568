//! A line of a journal, read from its bytes.

ghost use Rattle.std.specs.Prelude.{◌≡◌, ◌^◌};
ghost use Rattle.std.specs.Option.{option_map};
ghost use Rattle.desk_values.specs.declared.capture.Event.TheVariants.{Start, Answer};
ghost use Rattle.desk_values.specs.Reading.{Reads, number_of, number_below};
ghost use Rattle.capture_format.specs.Inside.Fields.{two_of};
ghost use Rattle.capture_format.specs.ReplyReading.{reply_of};
ghost use Rattle.replay_history.specs.Mode.{mode_of};
ghost use Rattle.replay_report.specs.Inside.JournalReading.{version_of, line_behind, worded_of, journal_line_of};

use capture_format::read_reply;
use desk_values::fields::{cut, read_u32, read_u64};
use desk_values::{Event, ReadErr, find_word};
use replay_history::Mode;
use std::alloc::Global;

/// A line of a journal, without its line feed.
#[derive(Drop)]
pub enum JournalLine {
    /// The first line: how the replay was synchronized.
    Head(Mode),
    /// What happened next.
    Event(Event),
    /// The last line.
    End,
}

/// The line that the bytes spell, without its line feed. `Bad` where they spell none.
#[tactic(auto, unfolding(crate::specs::Inside::JournalReading::journal_line_of))]
pub(crate) fn read_journal_line(alloc: Global, bytes: &[u8]) -> Result<JournalLine, ReadErr>
    ensures { Reads result (journal_line_of bytes.now) }
{
    if bytes == b"end".as_slice() {
        return Ok(JournalLine::End);
    }
    read_worded(alloc, bytes)
}

#[tactic(auto, unfolding(crate::specs::Inside::JournalReading::worded_of))]
fn read_worded(alloc: Global, bytes: &[u8]) -> Result<JournalLine, ReadErr>
    ensures { Reads result (worded_of bytes.now) }
{
    let (word, rest) = cut(bytes, b' ').ok_or(ReadErr::Bad)?;
    read_behind(alloc, word, rest)
}

// The line with this first field.
#[tactic(auto, unfolding(crate::specs::Inside::JournalReading::line_behind))]
fn read_behind(alloc: Global, word: &[u8], rest: &[u8]) -> Result<JournalLine, ReadErr>
    ensures { Reads result (line_behind word.now rest.now) }
{
    if word == b"journal".as_slice() {
        read_head(rest).ok_or(ReadErr::Bad)
    } else if word == b"s".as_slice() {
        read_start(rest).ok_or(ReadErr::Bad)
    } else if word == b"a".as_slice() {
        read_answer(alloc, rest)
    } else {
        Err(ReadErr::Bad)
    }
}

#[tactic(auto, unfolding(capture_format::specs::Inside::Fields::two_of))]
fn read_head(bytes: &[u8]) -> Option<JournalLine>
    ensures { result ≡ option_map (λ p. JournalLine.Head p.1) (two_of 32 version_of mode_of bytes.now) }
{
    let (version, mode) = cut(bytes, b' ')?;
    read_version(version)?;
    Some(JournalLine::Head(find_word(mode)?))
}

#[tactic(auto, unfolding(crate::specs::Inside::JournalReading::version_of))]
fn read_version(bytes: &[u8]) -> Option<()>
    ensures { result ≡ version_of bytes.now }
{
    if bytes == b"1".as_slice() {
        Some(())
    } else {
        None
    }
}

#[tactic(auto, unfolding(capture_format::specs::Inside::Fields::two_of))]
fn read_start(bytes: &[u8]) -> Option<JournalLine>
    ensures { result ≡ option_map (λ p. JournalLine.Event (Start p.0 p.1)) (two_of 32 (number_below (2 ^ 32)) number_of bytes.now) }
{
    let (stamp, pause) = cut(bytes, b' ')?;
    let stamp = read_u32(stamp)?;
    Some(JournalLine::Event(Event::Start(stamp, read_u64(pause)?)))
}

#[tactic(auto, unfolding(capture_format::specs::Inside::Fields::two_of))]
fn read_answer(alloc: Global, bytes: &[u8]) -> Result<JournalLine, ReadErr>
    ensures { Reads result (option_map (λ p. JournalLine.Event (Answer p.0 p.1)) (two_of 32 (number_below (2 ^ 32)) reply_of bytes.now)) }
{
    let (stamp, reply) = cut(bytes, b' ').ok_or(ReadErr::Bad)?;
    let stamp = read_u32(stamp).ok_or(ReadErr::Bad)?;
    Ok(JournalLine::Event(Event::Answer(stamp, read_reply(alloc, reply)?)))
}
