//! The answer at the front of the bytes that came.

ghost use Rattle.std.specs.Prelude.{◌≡◌, ◌+◌, ◌^◌, ◌<◌, ◌≤◌, false, length, map, All, IfSome, IsTrue};
ghost use Rattle.httparse.specs.Spans.{IsHeaderWithin, header_bytes};
ghost use Rattle.http_answers.specs.Answers.{Begins, IsBodyShort, IsWholeAt, Shows, content_length};
ghost use Rattle.http_answers.specs.Inside.{body_by};
ghost use Rattle.http_answers.specs.Limits.{body_limit};

use crate::limits::BODY_LIMIT;
use http_requests::{FIELD_LIMIT, HEAD_LIMIT, Sole, length_of, sole_field};
use httparse::Status;
use httparse::spans::{EMPTY_HEADER_SPAN, HeaderSpan, ResponseSpans, parse_response};

/// An answer whose head has come.
#[derive(Clone, Copy, Debug, PartialEq, Eq)]
pub struct Answer {
    /// How many bytes stand before its body.
    pub head: usize,
    /// How many bytes its body has.
    pub body: usize,
    /// Its status.
    pub status: u16,
}

impl Answer {
    /// How many bytes it has.
    pub fn len(&self) -> usize
        requires { self.now.head + self.now.body < 2 ^ 64 }
        ensures { result ≡ self.now.head + self.now.body }
    {
        self.head + self.body
    }

    /// Whether all of it has come.
    pub fn is_whole(&self, bytes: &[u8]) -> bool
        requires { Begins bytes.now self.now }
        ensures whole { IsTrue result → IsWholeAt bytes.now self.now }
        ensures short { result ≡ false → IsBodyShort bytes.now self.now }
    {
        self.body <= bytes.len() - self.head
    }
}

/// What bytes begin with.
#[derive(Clone, Copy, Debug, PartialEq, Eq)]
pub enum Front {
    /// They may become the head of an answer, and are none yet.
    Short,
    /// The head of this answer.
    Begun(Answer),
    /// Nothing that an answer begins with.
    Other,
}

/// What the bytes begin with.
pub fn front_of(bytes: &[u8]) -> Front
    ensures { Shows bytes.now result }
{
    let front = &bytes[..bytes.len().min(HEAD_LIMIT)];
    let mut spans = [EMPTY_HEADER_SPAN; FIELD_LIMIT];
    match parse_response(front, &mut spans) {
        Ok(Status::Complete(found)) => answer_at(front, &found, &spans[..found.headers]),
        Ok(Status::Partial) if bytes.len() < HEAD_LIMIT => Front::Short,
        _ => Front::Other,
    }
}

// The same, where the head was read: its fields tell how long the body is.
fn answer_at(text: &[u8], found: &ResponseSpans, fields: &[HeaderSpan]) -> Front
    requires fields { All (IsHeaderWithin (length text.now)) fields.now }
    ensures { result ≡ body_by found.now.len found.now.code (content_length (map (header_bytes text.now) fields.now)) }
{
    match body_length(text, fields) {
        Some(body) => Front::Begun(Answer {
            head: found.len,
            body,
            status: found.code,
        }),
        None => Front::Other,
    }
}

// The length of the body, where one field alone tells it and it is within the limit.
fn body_length(text: &[u8], fields: &[HeaderSpan]) -> Option<usize>
    requires fields { All (IsHeaderWithin (length text.now)) fields.now }
    ensures value { result ≡ content_length (map (header_bytes text.now) fields.now) }
    ensures limit { IfSome result (λ body. body ≤ body_limit) }
{
    let Sole::One(digits) = sole_field(text, fields, b"content-length") else {
        return None;
    };
    match length_of(digits) {
        Some(length) if length <= BODY_LIMIT => Some(length as usize),
        _ => None,
    }
}
