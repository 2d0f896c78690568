//! The request at the front of the bytes that came.

ghost use Rattle.std.specs.Prelude.{◌≡◌, ◌+◌, ◌^◌, ◌<◌, ◌≤◌, false, length, take, IfNone, IfSome, IsTrue};
ghost use Rattle.http_requests.specs.Heads.{HasNoEnd};
ghost use Rattle.http_requests.specs.Limits.{body_limit, head_limit};
ghost use Rattle.http_requests.specs.Requests.{Begins, IsUnfinished, IsWholeAt};

use crate::deciding::decide;
use crate::decision::Decision;
use crate::head_end::head_end;
use crate::limits::HEAD_LIMIT;
use crate::routes::Routes;
use http::StatusCode;

/// A request whose head has come.
#[derive(Clone, Copy, Debug, PartialEq, Eq)]
pub struct Request {
    /// How many bytes stand before its body.
    pub head: usize,
    /// What they decide.
    pub decision: Decision,
}

impl Request {
    /// How many bytes it has.
    pub fn len(&self) -> usize
        requires { self.now.head + self.now.decision.body < 2 ^ 64 }
        ensures { result ≡ self.now.head + self.now.decision.body }
    {
        self.head + self.decision.body
    }

    /// Whether all of it has come.
    pub fn is_whole(&self, bytes: &[u8]) -> bool
        requires { Begins bytes.now self.now }
        ensures whole { IsTrue result → IsWholeAt bytes.now self.now }
        ensures short { result ≡ false → IsUnfinished bytes.now }
    {
        self.decision.body <= bytes.len() - self.head
    }
}

/// The request that the bytes begin with, as soon as they tell where its head ends, or have as many bytes as a head may have. The
/// first `searched` of them are known to hold no end of a head.
pub fn begun_request(routes: &Routes, bytes: &[u8], searched: usize) -> Option<Request>
    requires within { searched ≤ length bytes.now }
    requires limit { searched ≤ head_limit }
    requires searched { HasNoEnd (take searched bytes.now) }
    ensures begun { IfSome result (λ request. Begins bytes.now request) }
    ensures limits { IfSome result (λ request. (request.head ≤ head_limit) × (request.decision.body ≤ body_limit)) }
    ensures none { IfNone result (HasNoEnd bytes.now) }
    ensures short { IfNone result (length bytes.now < head_limit) }
{
    let front = &bytes[..bytes.len().min(HEAD_LIMIT)];
    match head_end(front, searched) {
        Some(head) => Some(Request {
            head,
            decision: decide(routes, &bytes[..head]),
        }),
        None if bytes.len() < HEAD_LIMIT => None,
        None => Some(Request {
            head: HEAD_LIMIT,
            decision: Decision::refusal(StatusCode::REQUEST_HEADER_FIELDS_TOO_LARGE),
        }),
    }
}
