ghost use Rattle.std.specs.Prelude.{◌≡◌, ◌≤◌, None, length, IfOk};
ghost use Rattle.desk_files.specs.Outside.{counted};
ghost use Rattle.desk_files.specs.Answers.{print_ending};
ghost use Rattle.desk_files.specs.Sources.{source_ending};

use crate::fault::Failed;
use crate::sink::Sink;
use crate::source::Source;
use std::io;
use std::io::{ErrorKind, Read, Write};
use std::marker::Model;
use std::net::{OpenStream, Shutdown};
use std::time::Duration;

/// How often a read that the system interrupted is asked in all.
const ASKED: usize = 1024;

/// How often a stream that is closed is read on, of how many bytes, and how long each of these reads waits, in milliseconds.
const LAST_READS: usize = 128;

const LAST_BYTES: usize = 8192;

const LAST_WAIT: u64 = 500;

/// What a stream of the system sends, which it does not tell. Contracts see the count of faults. It is closed behind the sink over the
/// same stream: what the other side still sends is read up to a bound, so that it finds the last answer whole; then the stream is let
/// go, and each read fails.
#[derive(Drop)]
pub struct RealSource<S> {
    stream: Option<S>,
    faults: u64,
}

impl<S> Model for RealSource<S> {
    ghost use Rattle.std.specs.Prelude.{ℕ};

    ghost Value = { ℕ };

    ghost view = { λ a. a.faults };
}

impl<S> RealSource<S> {
    /// The source that `stream` is, with no fault so far.
    pub fn new(stream: S) -> Self
        ensures { result ≡ 0 }
    {
        RealSource {
            stream: Some(stream),
            faults: 0,
        }
    }

    /// The stream, unless it was let go.
    pub(crate) fn stream(&self) -> Option<&S> {
        self.stream.as_ref()
    }
}

impl<S: Read + OpenStream + Drop> Source for RealSource<S> {
    ghost account = { λ count. record { content = None; faults = count } };

    /// A read that the system interrupted is asked again.
    fn read(&mut self, buffer: &mut [u8]) -> Result<usize, Failed>
        ensures fits { IfOk result (λ n. n ≤ length buffer.new) }
        ensures count { self.new ≡ counted (source_ending result) self.old }
    {
        match read_asked(&mut self.stream, buffer) {
            Ok(read) => Ok(read),
            Err(_) => {
                self.faults = self.faults.saturating_add(1);
                Err(Failed)
            }
        }
    }

    /// Reads what the other side still sends, up to a bound, and lets the stream go.
    fn close(&mut self)
        ensures { self.new ≡ self.old }
    {
        read_on(&mut self.stream);
        self.stream = None;
    }
}

// Reads on until the other side ends, or a bound is reached. Where it can't be said how long a read may wait, nothing is read.
fn read_on<S: Read + OpenStream>(stream: &mut Option<S>) {
    let Some(stream) = stream else {
        return;
    };
    let wait = Duration::from_millis(LAST_WAIT);
    if stream.set_read_timeout(Some(wait)).is_err() {
        return;
    }
    let mut buffer = [0; LAST_BYTES];
    for _ in 0..LAST_READS {
        match stream.read(&mut buffer) {
            Ok(n) if n > 0 => {}
            _ => return,
        }
    }
}

// A read that is asked until the system lets it end.
fn read_asked<S: Read>(stream: &mut Option<S>, buffer: &mut [u8]) -> io::Result<usize>
    ensures { IfOk result (λ n. n ≤ length buffer.new) }
{
    let Some(stream) = stream else {
        return Err(io::Error::from(ErrorKind::NotConnected));
    };
    for _ in 0..ASKED {
        match stream.read(buffer) {
            Err(error) if error.kind() == ErrorKind::Interrupted => {}
            read => return read,
        }
    }
    Err(io::Error::from(ErrorKind::Interrupted))
}

/// What a stream of the system is sent, which it does not tell. Contracts see the count of faults. Once it is closed the sending side
/// has ended, this handle of the stream is let go, and each write fails.
#[derive(Drop)]
pub struct RealSink<S> {
    stream: Option<S>,
    faults: u64,
}

impl<S> Model for RealSink<S> {
    ghost use Rattle.std.specs.Prelude.{ℕ};

    ghost Value = { ℕ };

    ghost view = { λ a. a.faults };
}

impl<S> RealSink<S> {
    /// The sink that `stream` is, with no fault so far.
    pub fn new(stream: S) -> Self
        ensures { result ≡ 0 }
    {
        RealSink {
            stream: Some(stream),
            faults: 0,
        }
    }
}

impl<S: Write + OpenStream + Drop> Sink for RealSink<S> {
    ghost account = { λ count. record { content = None; faults = count } };

    fn write(&mut self, bytes: &[u8]) -> Result<(), Failed>
        ensures { self.new ≡ counted (print_ending result) self.old }
    {
        if write_whole(&mut self.stream, bytes).is_err() {
            self.faults = self.faults.saturating_add(1);
            return Err(Failed);
        }
        Ok(())
    }

    /// Ends the sending side, and lets the stream go.
    fn close(&mut self)
        ensures { self.new ≡ self.old }
    {
        end_sending(&self.stream);
        self.stream = None;
    }
}

// A side that the other has ended can't be ended once more, and has ended all the same.
fn end_sending<S: OpenStream>(stream: &Option<S>) {
    if let Some(stream) = stream {
        let _ = stream.shutdown(Shutdown::Write);
    }
}

fn write_whole<S: Write>(stream: &mut Option<S>, bytes: &[u8]) -> io::Result<()> {
    let Some(stream) = stream else {
        return Err(io::Error::from(ErrorKind::NotConnected));
    };
    stream.write_all(bytes)
}
