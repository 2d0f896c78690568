//! Journals, read from their bytes.

ghost use Rattle.std.specs.Prelude.{◌≡◌, true};
ghost use Rattle.file_lines.specs.File.{ReadsFile};
ghost use Rattle.file_lines.specs.Inside.{AddsLine};
ghost use Rattle.replay_report.specs.JournalFile.{journal_form, is_ended, new_view, IsBadJournal, IsJournal};

use crate::journal_line::{JournalLine, read_journal_line};
use desk_values::{Event, History, ReadErr, Reserved};
use file_lines::{FormErr, LineFile, read_lines};
use replay_history::Mode;
use std::alloc::Global;
use std::marker::Model;

/// What a journal says: how a replay was synchronized, and what happened in it.
#[derive(Drop)]
pub struct Journal {
    /// Which calls each call waited for.
    pub mode: Mode,
    /// The events in order.
    pub history: History,
}

/// The journal that the bytes spell, as [`journal_text`](crate::journal_text) writes it: lines, each with a line feed.
/// `journal 1` with the mode's word comes first, then a line for each event, `s` with a stamp and a pause or `a` with a
/// stamp and a reply, and `end` last. `Bad` exactly where the bytes are no journal, with the first line that is not whole
/// or may not come where it stands; `Memory` for want of memory.
pub fn read_journal(alloc: Global, bytes: &[u8]) -> Result<Journal, FormErr>
    ensures { ReadsFile result (λ journal. IsJournal bytes.now journal.mode journal.history.items) (IsBadJournal bytes.now) }
{
    let draft = JournalDraft::new(alloc);
    match read_lines(bytes, draft) {
        Ok(read) => Ok(read.into_journal()),
        Err(error) => Err(error),
    }
}

/// How far the lines have come.
#[derive(Clone, Copy)]
enum Stage {
    Empty,
    Headed(Mode),
    Ended(Mode),
}

/// The lines so far.
#[derive(Drop)]
struct JournalDraft {
    alloc: Global,
    stage: Stage,
    events: History,
}

impl Model for JournalDraft {
    ghost use Rattle.replay_report.specs.JournalView.{JournalView};

    ghost Value = { JournalView };

    ghost view = { λ a. record { stage = a.stage; events = a.events.items } };
}

impl LineFile for JournalDraft {
    ghost use Rattle.replay_report.specs.JournalView.{JournalView};
    ghost use Rattle.file_lines.specs.Form.{Comes};

    ghost State = { JournalView };

    ghost state = { λ draft. draft };

    ghost comes = { Comes journal_form };

    ghost done = { is_ended };

    fn add(mut self, line: &[u8]) -> Result<JournalDraft, ReadErr> {
        let line = read_journal_line(self.alloc, line)?;
        self.add_line(line)?;
        Ok(self)
    }

    fn is_done(&self) -> bool {
        matches!(self.stage, Stage::Ended(_))
    }
}

impl JournalDraft {
    fn new(alloc: Global) -> JournalDraft
        ensures { result ≡ new_view }
    {
        JournalDraft {
            alloc,
            stage: Stage::Empty,
            events: Reserved::new(alloc),
        }
    }

    fn add_line(&mut self, line: JournalLine) -> Result<(), ReadErr>
        ensures { AddsLine journal_form result self.old line self.new }
    {
        match line {
            JournalLine::Head(mode) => self.add_head(mode),
            JournalLine::Event(event) => self.add_event(event),
            JournalLine::End => self.add_end(),
        }
    }

    fn add_head(&mut self, mode: Mode) -> Result<(), ReadErr>
        ensures { AddsLine journal_form result self.old (JournalLine.Head mode) self.new }
    {
        let Stage::Empty = self.stage else {
            return Err(ReadErr::Bad);
        };
        self.stage = Stage::Headed(mode);
        Ok(())
    }

    fn add_event(&mut self, event: Event) -> Result<(), ReadErr>
        ensures { AddsLine journal_form result self.old (JournalLine.Event event) self.new }
    {
        let Stage::Headed(_) = self.stage else {
            return Err(ReadErr::Bad);
        };
        self.events.push(event)?;
        Ok(())
    }

    fn add_end(&mut self) -> Result<(), ReadErr>
        ensures { AddsLine journal_form result self.old JournalLine.End self.new }
    {
        let Stage::Headed(mode) = self.stage else {
            return Err(ReadErr::Bad);
        };
        self.stage = Stage::Ended(mode);
        Ok(())
    }

    // What the lines said.
    fn into_journal(self) -> Journal
        requires { is_ended self ≡ true }
        ensures mode { self.stage ≡ Stage.Ended result.mode }
        ensures events { result.history.items ≡ self.events }
    {
        let mode = match self.stage {
            Stage::Ended(mode) => mode,
            Stage::Empty | Stage::Headed(_) => unreachable!(),
        };
        Journal {
            mode,
            history: self.events,
        }
    }
}
