//! What a request's head decides.

ghost use Rattle.std.specs.Prelude.{◌≡◌, ◌≤◌, length, bytes_eq, All, Option, IfOk, IsUtf8};
ghost use Rattle.httparse.specs.Spans.{IsHeaderWithin, IsWithin, span_bytes};
ghost use Rattle.http_requests.specs.Decisions.{body_length, by_length, closes, decision_of, verdict_of};
ghost use Rattle.http_requests.specs.Heads.{Head, Reads};
ghost use Rattle.http_requests.specs.Inside.Reading.{head_at};
ghost use Rattle.http_requests.specs.Limits.{body_limit};

use crate::decision::{Decision, Verdict};
use crate::fields::{Sole, has_field, says_close, sole_field, told_length};
use crate::limits::FIELD_LIMIT;
use crate::routes::{Place, Routes};
use http::{Method, StatusCode};
use httparse::Status;
use httparse::spans::{EMPTY_HEADER_SPAN, HeaderSpan, RequestSpans, parse_request};

/// What these bytes decide, which are a head where they are one of the grammar.
pub(crate) fn decide(routes: &Routes, text: &[u8]) -> Decision
    ensures value { (read : Option Head) × Reads text.now read × (result ≡ decision_of read) }
    ensures limit { result.body ≤ body_limit }
{
    let mut spans = [EMPTY_HEADER_SPAN; FIELD_LIMIT];
    match parse_request(text, &mut spans) {
        Ok(Status::Complete(found)) if found.len == text.len() => {
            decide_head(routes, text, &found, &spans[..found.headers])
        }
        _ => Decision::refusal(StatusCode::BAD_REQUEST),
    }
}

// The same, where the head was read.
fn decide_head(
    routes: &Routes,
    text: &[u8],
    found: &RequestSpans,
    fields: &[HeaderSpan],
) -> Decision
    requires method { IsWithin (length text.now) found.now.method }
    requires path { IsWithin (length text.now) found.now.path }
    requires utf8 { IsUtf8 (span_bytes text.now found.now.path) }
    requires fields { All (IsHeaderWithin (length text.now)) fields.now }
    ensures value { result ≡ by_length (head_at text.now found.now fields.now) (body_length (head_at text.now found.now fields.now)) }
    ensures limit { result.body ≤ body_limit }
{
    match body_length(text, found, fields) {
        Err(status) => Decision::refusal(status),
        Ok(body) => Decision {
            body,
            closes: found.version == 0 || says_close(text, fields),
            verdict: verdict(routes, found.path.of(text), found.method.of(text)),
        },
    }
}

// How long the body is, or the status that refuses the request.
fn body_length(
    text: &[u8],
    found: &RequestSpans,
    fields: &[HeaderSpan],
) -> Result<usize, StatusCode>
    requires method { IsWithin (length text.now) found.now.method }
    requires fields { All (IsHeaderWithin (length text.now)) fields.now }
    ensures value { result ≡ body_length (head_at text.now found.now fields.now) }
    ensures limit { IfOk result (λ body. body ≤ body_limit) }
{
    if has_field(text, fields, b"transfer-encoding") {
        return Err(StatusCode::LENGTH_REQUIRED);
    }
    match sole_field(text, fields, b"content-length") {
        Sole::Many => Err(StatusCode::BAD_REQUEST),
        Sole::One(digits) => told_length(digits),
        Sole::Absent if is_method(found.method.of(text), &Method::POST) => {
            Err(StatusCode::LENGTH_REQUIRED)
        }
        Sole::Absent => Ok(0),
    }
}

// What is asked for by this target and this method.
fn verdict(routes: &Routes, target: &[u8], method: &[u8]) -> Verdict
    requires { IsUtf8 target.now }
    ensures { result ≡ verdict_of target.now method.now }
{
    match routes.place_of(target) {
        None => Verdict::Refused(StatusCode::NOT_FOUND),
        Some(Place::Call) if is_method(method, &Method::POST) => Verdict::Call,
        Some(Place::Session) if is_method(method, &Method::GET) => Verdict::Session,
        Some(_) => Verdict::Refused(StatusCode::METHOD_NOT_ALLOWED),
    }
}

// Whether these bytes are this method.
fn is_method(bytes: &[u8], method: &Method) -> bool
    ensures { result ≡ bytes_eq bytes.now method.now }
{
    bytes == method.as_str().as_bytes()
}
