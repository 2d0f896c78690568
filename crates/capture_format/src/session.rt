//! Session files, read from their bytes.

ghost use Rattle.std.specs.Prelude.{◌≡◌, IsTrue, ◌↔◌};
ghost use Rattle.desk_values.specs.Good.{MayTell};
ghost use Rattle.desk_values.specs.Reading.{Reads};
ghost use Rattle.desk_schema.specs.Schema.{IsVersion};
ghost use Rattle.file_lines.specs.File.{ReadsFile};
ghost use Rattle.file_lines.specs.Inside.{AddsLine};
ghost use Rattle.capture_format.specs.Inside.SessionReading.{session_line_of};
ghost use Rattle.capture_format.specs.SessionFile.{session_form, is_ended, new_view, captured_of, IsBadSession, IsSessionFile};

use crate::known_texts::{KEPT_TEXTS, KnownTexts};
use crate::session_line::{CallLine, SessionLine, read_session_line};
use desk_values::{CallList, Captured, ReadErr, Reply, Reserved};
use file_lines::{FormErr, LineFile, read_lines};
use std::alloc::Global;
use std::marker::Model;

/// The calls that the file of this session spells, in order, with every kind of call and reply. The file is lines, each
/// with a line feed: `session V N` with the version and the session's number, a line for each call, and `end`. A call's line is its
/// stamp, when it began and ended in microseconds from the capture's start, how many numbered commits it had seen, its own
/// commit's number or `-`, the call, `>` and the reply, with spaces between:
/// `0 4 9 0 - connect tmain > connected [] -`. Stamps rise from line to line; neither moment is after [`LAST_MOMENT`]. A server
/// without savepoints wrote version 1, so that `refused 34` stands in no such file.
/// `Bad` exactly where the bytes are no file of this session, with the first line that is not whole or may not come where
/// it stands; `Memory` for want of memory.
///
/// [`LAST_MOMENT`]: desk_values::LAST_MOMENT
pub fn read_session(
    alloc: Global,
    bytes: &[u8],
    session: u32,
    version: u32,
) -> Result<CallList, FormErr>
    requires { IsVersion version }
    ensures { ReadsFile result
        (λ calls. IsSessionFile session version bytes.now calls.items) (IsBadSession session version bytes.now) }
{
    let draft = SessionDraft::new(alloc, session, version);
    match read_lines(bytes, draft) {
        Ok(read) => Ok(read.calls),
        Err(error) => Err(error),
    }
}

/// How far the lines have come.
#[derive(Clone, Copy)]
enum Stage {
    Empty,
    Headed,
    Ended,
}

/// The lines so far.
#[derive(Drop)]
struct SessionDraft {
    alloc: Global,
    session: u32,
    version: u32,
    stage: Stage,
    // the least stamp of the next call
    least: u64,
    calls: CallList,
    texts: KnownTexts,
}

impl Model for SessionDraft {
    ghost use Rattle.std.specs.Prelude.{◌≤◌, ◌^◌, length};
    ghost use Rattle.capture_format.specs.SessionView.{SessionView};

    ghost Value = { SessionView };

    ghost view = { λ a.
        record {
          session = a.session;
          version = a.version;
          stage = a.stage;
          least = a.least;
          calls = a.calls.items;
        } };

    ghost invariant = { λ a. (length a.calls.items ≤ a.least) × (a.least ≤ 2 ^ 32) };
}

impl LineFile for SessionDraft {
    ghost use Rattle.capture_format.specs.SessionView.{SessionView};
    ghost use Rattle.file_lines.specs.Form.{Comes};

    ghost State = { SessionView };

    ghost state = { λ draft. draft };

    ghost comes = { Comes session_form };

    ghost done = { is_ended };

    fn add(mut self, line: &[u8]) -> Result<SessionDraft, ReadErr> {
        let line = self.read(line)?;
        self.add_line(line)?;
        Ok(self)
    }

    fn is_done(&self) -> bool {
        matches!(self.stage, Stage::Ended)
    }
}

impl SessionDraft {
    fn new(alloc: Global, session: u32, version: u32) -> SessionDraft
        ensures { result ≡ new_view session version }
    {
        SessionDraft {
            alloc,
            session,
            version,
            stage: Stage::Empty,
            least: 0,
            calls: Reserved::new(alloc),
            texts: KnownTexts::new(alloc, KEPT_TEXTS),
        }
    }

    // The line that the bytes spell. It may keep a text.
    fn read(&mut self, line: &[u8]) -> Result<SessionLine, ReadErr>
        ensures line { Reads result (session_line_of line.now) }
        ensures same { self.new ≡ self.old }
    {
        read_session_line(self.alloc, &mut self.texts, line)
    }

    fn add_line(&mut self, line: SessionLine) -> Result<(), ReadErr>
        ensures { AddsLine session_form result self.old line self.new }
    {
        match line {
            SessionLine::Head(version, number) => self.add_head(version, number),
            SessionLine::Call(line) => self.add_call(line),
            SessionLine::End => self.add_end(),
        }
    }

    fn add_head(&mut self, version: u32, number: u32) -> Result<(), ReadErr>
        ensures { AddsLine session_form result self.old (SessionLine.Head version number) self.new }
    {
        let Stage::Empty = self.stage else {
            return Err(ReadErr::Bad);
        };
        if version != self.version || number != self.session {
            return Err(ReadErr::Bad);
        }
        self.stage = Stage::Headed;
        Ok(())
    }

    fn add_call(&mut self, line: CallLine) -> Result<(), ReadErr>
        ensures { AddsLine session_form result self.old (SessionLine.Call line) self.new }
    {
        let Stage::Headed = self.stage else {
            return Err(ReadErr::Bad);
        };
        if (line.stamp as u64) < self.least || !may_tell(self.version, &line.reply) {
            return Err(ReadErr::Bad);
        }
        self.least = line.stamp as u64 + 1;
        let place = self.calls.len() as u32;
        self.calls.push(captured(self.session, place, line))?;
        Ok(())
    }

    fn add_end(&mut self) -> Result<(), ReadErr>
        ensures { AddsLine session_form result self.old SessionLine.End self.new }
    {
        let Stage::Headed = self.stage else {
            return Err(ReadErr::Bad);
        };
        self.stage = Stage::Ended;
        Ok(())
    }
}

// Whether a server of the version may give the reply.
fn may_tell(version: u32, reply: &Reply) -> bool
    ensures { IsTrue result ↔ MayTell version reply.now }
{
    version != 1 || !reply.misses_savepoint()
}

fn captured(session: u32, place: u32, line: CallLine) -> Captured
    ensures { result ≡ captured_of session place line }
{
    Captured {
        session,
        place,
        stamp: line.stamp,
        seen: line.seen,
        number: line.number,
        began: line.began,
        ended: line.ended,
        call: line.call,
        reply: line.reply,
    }
}
