ghost use Rattle.std.specs.Prelude.{◌≡◌, ◌≤◌, ◌^◌, List, Option, IfSome};
ghost use Rattle.std.specs.Option.{option_map, option_copied};
ghost use Rattle.desk_values.specs.Reading.{Reads, number_below};
ghost use Rattle.capture_format.specs.Inside.Fields.{two_of};
ghost use Rattle.capture_format.specs.Inside.SessionReading.{number_at, commit_number_of, commit_number_at, before_space, behind_space, exchange_of, call_line_of, head_of, session_line_of};

use crate::call::call;
use crate::known_texts::KnownTexts;
use crate::reply::read_reply;
use desk_values::fields::{cut, cut_near, read_u32, read_u64};
use desk_values::{Call, LAST_MOMENT, ReadErr, Reply};
use std::alloc::Global;

/// A line of a session file, without its line feed.
#[derive(Drop)]
pub enum SessionLine {
    /// The first line: the version of the format, and the session's number.
    Head(u32, u32),
    /// A call with its answer.
    Call(CallLine),
    /// The last line.
    End,
}

/// What the line of a call says, in the line's order.
#[derive(Drop)]
pub struct CallLine {
    /// Where the call stands among all calls of the capture, from 0.
    pub stamp: u32,
    /// When it began, in microseconds from the capture's start.
    pub began: u64,
    /// When it ended, in microseconds from the capture's start.
    pub ended: u64,
    /// How many numbered commits stand before it.
    pub seen: u64,
    /// Its own number among the commits that wrote something, from 1, or 0 where it is none.
    pub number: u64,
    /// What was asked.
    pub call: Call,
    /// What was answered.
    pub reply: Reply,
}

// What was asked and what was answered.
#[derive(Drop)]
struct Exchange {
    call: Call,
    reply: Reply,
}

// A number up to `most`, and what stands behind the space after it.
#[tactic(auto, unfolding(crate::specs::Inside::SessionReading::number_at))]
fn read_number(bytes: &[u8], most: u64) -> Option<(u64, &[u8])>
    ensures value { option_map (λ x. (x.0, x.1.now)) result ≡ number_at most bytes.now }
    ensures most { IfSome result (λ x. x.0 ≤ most) }
{
    let (field, rest) = cut_near(bytes, b' ')?;
    let number = read_u64(field)?;
    if number <= most {
        Some((number, rest))
    } else {
        None
    }
}

#[tactic(auto, unfolding(crate::specs::Inside::SessionReading::commit_number_of))]
fn commit_number(field: &[u8]) -> Option<u64>
    ensures { result ≡ commit_number_of field.now }
{
    if field == b"-".as_slice() {
        return Some(0);
    }
    let number = read_u64(field)?;
    if number == 0 { None } else { Some(number) }
}

// The number of a commit, and what stands behind the space after it.
#[tactic(auto, unfolding(crate::specs::Inside::SessionReading::commit_number_at))]
fn read_commit_number(bytes: &[u8]) -> Option<(u64, &[u8])>
    ensures { option_map (λ x. (x.0, x.1.now)) result ≡ commit_number_at bytes.now }
{
    let (field, rest) = cut_near(bytes, b' ')?;
    Some((commit_number(field)?, rest))
}

fn front_of(bytes: &[u8]) -> Option<&[u8]>
    ensures { option_copied result ≡ before_space bytes.now }
{
    let (last, front) = bytes.split_last()?;
    if *last == b' ' { Some(front) } else { None }
}

fn back_of(bytes: &[u8]) -> Option<&[u8]>
    ensures { option_copied result ≡ behind_space bytes.now }
{
    match bytes {
        [b' ', back @ ..] => Some(back),
        _ => None,
    }
}

// What was asked and what was answered, with ` > ` between.
#[tactic(auto, unfolding(crate::specs::Inside::SessionReading::exchange_of))]
fn read_exchange(alloc: Global, texts: &mut KnownTexts, bytes: &[u8]) -> Result<Exchange, ReadErr>
    ensures { Reads result (exchange_of bytes.now) }
{
    let (before, behind) = cut(bytes, b'>').ok_or(ReadErr::Bad)?;
    let asked = front_of(before).ok_or(ReadErr::Bad)?;
    let answered = back_of(behind).ok_or(ReadErr::Bad)?;
    let call = call(alloc, texts, asked)?;
    let reply = read_reply(alloc, answered)?;
    Ok(Exchange { call, reply })
}

// The line of a call.
#[tactic(auto, unfolding(crate::specs::Inside::SessionReading::call_line_of))]
fn read_call_line(alloc: Global, texts: &mut KnownTexts, bytes: &[u8]) -> Result<CallLine, ReadErr>
    ensures { Reads result (call_line_of bytes.now) }
{
    let (stamp, rest) = read_number(bytes, u32::MAX as u64).ok_or(ReadErr::Bad)?;
    let (began, rest) = read_number(rest, LAST_MOMENT).ok_or(ReadErr::Bad)?;
    let (ended, rest) = read_number(rest, LAST_MOMENT).ok_or(ReadErr::Bad)?;
    let (seen, rest) = read_number(rest, u64::MAX).ok_or(ReadErr::Bad)?;
    let (number, rest) = read_commit_number(rest).ok_or(ReadErr::Bad)?;
    let exchange = read_exchange(alloc, texts, rest)?;
    Ok(CallLine {
        stamp: stamp as u32,
        began,
        ended,
        seen,
        number,
        call: exchange.call,
        reply: exchange.reply,
    })
}

// The version and the number of the session in its file's first line.
#[tactic(auto, unfolding(crate::specs::Inside::SessionReading::head_of))]
fn read_head(bytes: &[u8]) -> Option<(u32, u32)>
    ensures { result ≡ head_of bytes.now }
{
    read_two(bytes.strip_prefix(b"session ")?)
}

// Two numbers with a space between.
#[tactic(auto, unfolding(crate::specs::Inside::Fields::two_of))]
fn read_two(bytes: &[u8]) -> Option<(u32, u32)>
    ensures { result ≡ two_of 32 (number_below (2 ^ 32)) (number_below (2 ^ 32)) bytes.now }
{
    let (first, second) = cut_near(bytes, b' ')?;
    Some((read_u32(first)?, read_u32(second)?))
}

/// The line that the bytes spell, without its line feed, with the texts that were read before. `Bad` where they spell none.
#[tactic(auto, unfolding(crate::specs::Inside::SessionReading::session_line_of))]
pub(crate) fn read_session_line(
    alloc: Global,
    texts: &mut KnownTexts,
    bytes: &[u8],
) -> Result<SessionLine, ReadErr>
    ensures { Reads result (session_line_of bytes.now) }
{
    if bytes == b"end".as_slice() {
        return Ok(SessionLine::End);
    }
    if let Some((version, session)) = read_head(bytes) {
        return Ok(SessionLine::Head(version, session));
    }
    Ok(SessionLine::Call(read_call_line(alloc, texts, bytes)?))
}
