//! The bytes of an answer.

ghost use Rattle.std.specs.Prelude.{◌≡◌, ◌++◌, IfOk, OnOk};
ghost use Rattle.capture_http.specs.Answers.{close_line, kind_line, length_line, phrase, response, session_text, shortage, status_line};

use desk_values::fields::append_u64;
use desk_values::{Bytes, Memory};
use http::StatusCode;
use std::alloc::Global;

/// The bytes of an answer.
#[tactic(auto, unfolding(crate::specs::Answers::response))]
pub(crate) fn response(
    alloc: Global,
    status: StatusCode,
    closes: bool,
    body: &[u8],
) -> Result<Bytes, Memory>
    ensures { IfOk result (λ bytes. bytes ≡ response status closes body.now) }
{
    let mut bytes = Bytes::new(alloc);
    append_status_line(status, &mut bytes)?;
    bytes.append(kind_line(status))?;
    append_length_line(body.len(), &mut bytes)?;
    bytes.append(close_line(closes))?;
    bytes.append(b"\r\n")?;
    bytes.append(body)?;
    Ok(bytes)
}

#[tactic(auto, unfolding(crate::specs::Answers::status_line))]
fn append_status_line(status: StatusCode, to: &mut Bytes) -> Result<(), Memory>
    ensures { OnOk result (to.new ≡ to.old ++ status_line status) }
{
    to.append(b"HTTP/1.1 ")?;
    append_u64(u64::from(status.as_u16()), to)?;
    to.append(b" ")?;
    to.append(phrase(status))?;
    to.append(b"\r\n")
}

#[tactic(auto, unfolding(crate::specs::Answers::length_line))]
fn append_length_line(n: usize, to: &mut Bytes) -> Result<(), Memory>
    ensures { OnOk result (to.new ≡ to.old ++ length_line n) }
{
    to.append(b"Content-Length: ")?;
    append_u64(n as u64, to)?;
    to.append(b"\r\n")
}

#[tactic(auto, unfolding(crate::specs::Answers::phrase))]
fn phrase(status: StatusCode) -> &'static [u8]
    ensures { result.now ≡ phrase status }
{
    match status.canonical_reason() {
        Some(phrase) => phrase.as_bytes(),
        None => b"",
    }
}

fn kind_line(status: StatusCode) -> &'static [u8]
    ensures { result.now ≡ kind_line status }
{
    if status == StatusCode::OK {
        b"Content-Type: application/json\r\n"
    } else {
        b""
    }
}

fn close_line(closes: bool) -> &'static [u8]
    ensures { result.now ≡ close_line closes }
{
    if closes {
        b"Connection: close\r\n"
    } else {
        b""
    }
}

/// The answer where memory is short, which takes none.
pub(crate) fn shortage() -> &'static [u8]
    ensures { result.now ≡ shortage }
{
    b"HTTP/1.1 503 Service Unavailable\r\nContent-Length: 0\r\nConnection: close\r\n\r\n"
}

/// The body that tells a session's number and how many of its calls were answered.
#[tactic(auto, unfolding(crate::specs::Answers::session_text))]
pub(crate) fn session_text(alloc: Global, calls: u32, session: u32) -> Result<Bytes, Memory>
    ensures { IfOk result (λ bytes. bytes ≡ session_text calls session) }
{
    let mut bytes = Bytes::new(alloc);
    bytes.append(b"{\"calls\":")?;
    append_u64(u64::from(calls), &mut bytes)?;
    bytes.append(b",\"session\":")?;
    append_u64(u64::from(session), &mut bytes)?;
    bytes.append(b"}")?;
    Ok(bytes)
}
