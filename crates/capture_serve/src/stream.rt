//! A stream that was closed.

ghost use Rattle.std.specs.Prelude.{◌≡◌};

use desk_files::{Sink, Source};
use std::marker::Model;

/// A stream that was closed. Closing takes the stream itself, and this alone is had of it then: so what is given back was closed. Contracts see
/// the stream.
#[derive(Drop)]
pub(crate) struct Closed<S> {
    stream: S,
}

impl<S> Model for Closed<S> {
    ghost Value = { S };

    ghost coded = { S.code };

    ghost view = { λ a. a.stream };
}

impl<S> Closed<S> {
    /// The stream, to give it back.
    pub(crate) fn into_stream(self) -> S
        ensures { result ≡ self }
    {
        self.stream
    }
}

/// Closes a sink.
pub(crate) fn close_sink<O: Sink>(output: O) -> Closed<O>
    ensures content { (O.account result).content ≡ (O.account output).content }
    ensures faults { (O.account result).faults ≡ (O.account output).faults }
{
    let mut stream = output;
    stream.close();
    Closed { stream }
}

/// Closes a source.
pub(crate) fn close_source<I: Source>(input: I) -> Closed<I>
    ensures content { (I.account result).content ≡ (I.account input).content }
    ensures faults { (I.account result).faults ≡ (I.account input).faults }
{
    let mut stream = input;
    stream.close();
    Closed { stream }
}
