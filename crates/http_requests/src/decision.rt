ghost use Rattle.std.specs.Prelude.{◌≡◌};
ghost use Rattle.http_requests.specs.Decisions.{refusal};

use http::StatusCode;

/// What a request asks for, or the status that refuses it.
#[derive(Clone, Copy, Debug, PartialEq, Eq)]
pub enum Verdict {
    /// It is answered with this status, and the server is not asked.
    Refused(StatusCode),
    /// It asks for its session.
    Session,
    /// Its body is to be a call.
    Call,
}

/// What a request's head decides.
#[derive(Clone, Copy, Debug, PartialEq, Eq)]
pub struct Decision {
    /// How many bytes the body has.
    pub body: usize,
    /// Whether the connection closes after the answer.
    pub closes: bool,
    /// What is asked for.
    pub verdict: Verdict,
}

impl Decision {
    /// It is refused without a look at its body, and the connection closes.
    pub(crate) fn refusal(status: StatusCode) -> Decision
        ensures { result ≡ refusal status }
    {
        Decision {
            body: 0,
            closes: true,
            verdict: Verdict::Refused(status),
        }
    }
}
