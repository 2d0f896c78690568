//! Start files, read from their bytes.

ghost use Rattle.std.specs.Prelude.{◌≡◌, ℕ, IfOk, OnOk, IfSome, IfNone, IsErrOf, IsTrue};
ghost use Rattle.desk_schema.specs.Line.{with_name};
ghost use Rattle.desk_schema.specs.State.{added, nothing};
ghost use Rattle.desk_schema.specs.Schema.{IsVersion};
ghost use Rattle.desk_schema.specs.Draft.{Judges};
ghost use Rattle.desk_schema.specs.Rules.{IsKind, IsWithin, MayFollow};
ghost use Rattle.file_lines.specs.File.{ReadsFile};
ghost use Rattle.file_lines.specs.Inside.{AddsLine};
ghost use Rattle.capture_format.specs.StartFile.{start_form, is_ended, IsBadStart, IsStartFile};
ghost use Rattle.capture_format.specs.Inside.StartStage.{IsStage, LeadsTo, state_at};

use crate::start_line::read_start_line;
use desk_schema::{ColumnKind, Draft, DraftErr, Kind, Start, StartLine, is_version};
use desk_values::{ReadErr, SESSION_LIMIT};
use file_lines::{FormErr, LineFile, read_lines};
use std::alloc::Global;
use std::marker::Model;
use std::mem;

/// What a start file says.
#[derive(Drop)]
pub struct StartFile {
    /// The schema and the rows that the capture starts from.
    pub start: Start,
    /// How many sessions were captured.
    pub sessions: u32,
}

/// The start file that the bytes spell, with columns of every kind. The file is lines in this order, each with a line
/// feed: `start 1` or `start 2`; `level 1`, or 2; sequences as `seq s 10`, with the next value; services as `svc main rw`, or `ro`; tables as
/// `table acct`, each with its columns as `col id int 0 9 notnull`, or `null`, of the kinds `int LOW HIGH`, `text BYTES` and
/// `seq NAME`; rows as `row 1 0 [i1]`, with their number, their table's and their values; `nextrow 2`; `sessions 1`, up to
/// 64; `end`. `Bad` exactly where the bytes are no start file, one that breaks a rule of [`Draft`] among them, with the
/// first line that is not whole or may not come where it stands; `Memory` for want of memory.
pub fn read_start(alloc: Global, bytes: &[u8]) -> Result<StartFile, FormErr>
    ensures { ReadsFile result (IsStartFile bytes.now) (IsBadStart bytes.now) }
{
    let draft = StartDraft {
        alloc,
        stage: Stage::Empty,
    };
    match read_lines(bytes, draft) {
        Ok(read) => Ok(read.finish()),
        Err(error) => Err(error),
    }
}

/// How far the lines have come.
#[derive(Drop)]
enum Stage {
    Empty,
    Headed(u32),
    Drafting(Draft),
    Declared(Start),
    Counted(Start, u32),
    Ended(Start, u32),
}

/// The lines so far. Contracts see the state that they lead to.
#[derive(Drop)]
struct StartDraft {
    alloc: Global,
    stage: Stage,
}

impl Model for StartDraft {
    ghost use Rattle.desk_schema.specs.State.{State};
    ghost use Rattle.capture_format.specs.Inside.StartStage.{IsStage, state_at};

    ghost Value = { State };

    ghost view = { λ a. state_at a.stage };

    ghost invariant = { λ a. IsStage a.stage };
}

impl LineFile for StartDraft {
    ghost use Rattle.desk_schema.specs.State.{State as Declared};
    ghost use Rattle.file_lines.specs.Form.{Comes};

    ghost State = { Declared };

    ghost state = { λ draft. draft };

    ghost comes = { Comes start_form };

    ghost done = { is_ended };

    fn add(mut self, line: &[u8]) -> Result<StartDraft, ReadErr> {
        let line = read_start_line(self.alloc, line)?;
        self.add_line(line)?;
        Ok(self)
    }

    fn is_done(&self) -> bool {
        matches!(&self.stage, Stage::Ended(_, _))
    }
}

impl StartDraft {
    fn add_line(&mut self, line: StartLine) -> Result<(), ReadErr>
        ensures { AddsLine start_form result self.old line self.new }
    {
        let stage = mem::replace(&mut self.stage, Stage::Empty);
        self.stage = next_stage(self.alloc, stage, line)?;
        Ok(())
    }

    // What the lines say, once all have come.
    fn finish(self) -> StartFile
        requires { IsTrue (is_ended self) }
        ensures start { result.start ≡ self.start }
        ensures sessions { result.sessions ≡ self.sessions }
    {
        match self.stage {
            Stage::Ended(start, sessions) => StartFile { start, sessions },
            _ => unreachable!(),
        }
    }
}

// The stage that the line leads to.
fn next_stage(alloc: Global, stage: Stage, line: StartLine) -> Result<Stage, ReadErr>
    requires { IsStage stage }
    ensures { LeadsTo result (state_at stage) line }
{
    match stage {
        Stage::Empty => match line {
            StartLine::Head(version) => {
                if is_version(version) {
                    Ok(Stage::Headed(version))
                } else {
                    Err(ReadErr::Bad)
                }
            }
            _ => Err(ReadErr::Bad),
        },
        Stage::Headed(version) => match line {
            StartLine::Level(level) => Ok(Stage::Drafting(begun(alloc, version, level)?)),
            _ => Err(ReadErr::Bad),
        },
        Stage::Drafting(draft) => next_of_draft(draft, line),
        Stage::Declared(start) => match line {
            StartLine::Sessions(count) => {
                if count as usize <= SESSION_LIMIT {
                    Ok(Stage::Counted(start, count))
                } else {
                    Err(ReadErr::Bad)
                }
            }
            _ => Err(ReadErr::Bad),
        },
        Stage::Counted(start, count) => match line {
            StartLine::End => Ok(Stage::Ended(start, count)),
            _ => Err(ReadErr::Bad),
        },
        Stage::Ended(_, _) => Err(ReadErr::Bad),
    }
}

// A draft with the first two lines.
fn begun(alloc: Global, version: u32, level: u32) -> Result<Draft, DraftErr>
    requires { IsVersion version }
    ensures ok { IfOk result (λ draft. draft ≡ added (added nothing (StartLine.Head version)) (StartLine.Level level)) }
    ensures rule { Judges result (MayFollow (added nothing (StartLine.Head version)) (StartLine.Level level)) }
{
    let mut draft = Draft::new(alloc, level)?;
    draft.set_version(version)?;
    Ok(draft)
}

fn next_of_draft(mut draft: Draft, line: StartLine) -> Result<Stage, ReadErr>
    requires { IsWithin 2 7 draft.last }
    ensures { LeadsTo result draft line }
{
    if let StartLine::NextRow(row) = line {
        return Ok(Stage::Declared(draft.finish(row)?));
    }
    add_declaration(&mut draft, line)?;
    Ok(Stage::Drafting(draft))
}

// Adds a line that stands between the level and the next row.
fn add_declaration(draft: &mut Draft, line: StartLine) -> Result<(), ReadErr>
    requires within { IsWithin 2 7 draft.old.last }
    requires other { (row : ℕ) → ¬ (line ≡ StartLine.NextRow row) }
    ensures ok { OnOk result (draft.new ≡ added draft.old line) }
    ensures rule { OnOk result (MayFollow draft.old line) }
    ensures within { OnOk result (IsWithin 2 7 draft.new.last) }
    ensures bad { IsErrOf result ReadErr.Bad → ¬ MayFollow draft.old line }
{
    match line {
        StartLine::Seq(name, next) => draft.add_seq(&name, next)?,
        StartLine::Service(name, rights) => draft.add_service(&name, rights)?,
        StartLine::Table(name) => draft.add_table(&name)?,
        StartLine::Column(name, kind, not_null) => {
            let kind = numbered(draft, kind).ok_or(ReadErr::Bad)?;
            draft.add_col(&name, kind, not_null)?;
        }
        StartLine::Row(row, table, values) => draft.add_row(row, table, values)?,
        StartLine::Head(_) => return Err(ReadErr::Bad),
        StartLine::Level(_) => return Err(ReadErr::Bad),
        StartLine::NextRow(_) => return Err(ReadErr::Bad),
        StartLine::Sessions(_) => return Err(ReadErr::Bad),
        StartLine::End => return Err(ReadErr::Bad),
    }
    Ok(())
}

// The kind with the sequence's number in place of its name.
fn numbered(draft: &Draft, kind: ColumnKind) -> Option<Kind>
    ensures some { IfSome result (λ found. with_name draft.now.start.schema.sequences found ≡ kind) }
    ensures none { IfNone result (¬ (IsKind draft.now.start.schema.sequences kind)) }
{
    match kind {
        ColumnKind::Int(low, high) => Some(Kind::Int(low, high)),
        ColumnKind::Text(most) => Some(Kind::Text(most)),
        ColumnKind::Seq(name) => Some(Kind::Seq(draft.sequence_named(&name)?)),
    }
}
