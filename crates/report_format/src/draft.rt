//! What the lines of a report have said so far.

ghost use Rattle.std.specs.Prelude.{◌≡◌, ◌↔◌, true};
ghost use Rattle.file_lines.specs.Inside.{AddsLine};
ghost use Rattle.report_format.specs.ReportFile.{count_in, counts_in, is_counted, new_report, report_form};

use crate::line::{ReportLine, read_report_line};
use desk_values::{List, ReadErr};
use file_lines::LineFile;
use replay_history::{CALL_LIMIT, Class, Line, Lines, Report};
use std::alloc::Global;
use std::marker::Model;

// How far the lines have come.
#[derive(Clone, Copy)]
enum Stage {
    Empty,
    Headed,
    Called,
    Ended,
}

/// The lines so far.
#[derive(Drop)]
pub(crate) struct Draft {
    stage: Stage,
    calls: u64,
    counts: List<u64>,
    lines: Lines,
    least: u64,
}

impl Model for Draft {
    ghost use Rattle.report_format.specs.ReportFile.{ReportView};

    ghost Value = { ReportView };

    ghost view = { λ a. record { stage = a.stage; calls = a.calls; counts = a.counts; lines = a.lines; least = a.least } };
}

impl LineFile for Draft {
    ghost use Rattle.report_format.specs.ReportFile.{ReportView, is_ended_report, report_form};
    ghost use Rattle.file_lines.specs.Form.{Comes};

    ghost State = { ReportView };

    ghost state = { λ draft. draft };

    ghost comes = { Comes report_form };

    ghost done = { is_ended_report };

    fn add(mut self, line: &[u8]) -> Result<Draft, ReadErr> {
        let line = read_report_line(line)?;
        self.add_line(line)?;
        Ok(self)
    }

    fn is_done(&self) -> bool {
        matches!(self.stage, Stage::Ended)
    }
}

impl Draft {
    /// Before the first line.
    pub(crate) fn new(alloc: Global) -> Draft
        ensures { result ≡ new_report }
    {
        Draft {
            stage: Stage::Empty,
            calls: 0,
            counts: List::new(alloc),
            lines: List::new(alloc),
            least: 0,
        }
    }

    fn add_line(&mut self, line: ReportLine) -> Result<(), ReadErr>
        ensures { AddsLine report_form result self.old line self.new }
    {
        match line {
            ReportLine::Head => self.add_head(),
            ReportLine::Calls(calls) => self.add_calls(calls),
            ReportLine::Count(class, count) => self.add_count(class, count),
            ReportLine::Call(line) => self.add_call(line),
            ReportLine::End => self.add_end(),
        }
    }

    fn add_head(&mut self) -> Result<(), ReadErr>
        ensures { AddsLine report_form result self.old ReportLine.Head self.new }
    {
        let Stage::Empty = self.stage else {
            return Err(ReadErr::Bad);
        };
        self.stage = Stage::Headed;
        Ok(())
    }

    fn add_calls(&mut self, calls: u64) -> Result<(), ReadErr>
        ensures { AddsLine report_form result self.old (ReportLine.Calls calls) self.new }
    {
        let Stage::Headed = self.stage else {
            return Err(ReadErr::Bad);
        };
        if calls > CALL_LIMIT as u64 {
            return Err(ReadErr::Bad);
        }
        self.stage = Stage::Called;
        self.calls = calls;
        Ok(())
    }

    fn add_count(&mut self, class: Class, count: u64) -> Result<(), ReadErr>
        ensures { AddsLine report_form result self.old (ReportLine.Count class count) self.new }
    {
        let Stage::Called = self.stage else {
            return Err(ReadErr::Bad);
        };
        if self.counts.len() != class as usize {
            return Err(ReadErr::Bad);
        }
        self.counts.push(count)?;
        Ok(())
    }

    fn add_call(&mut self, line: Line) -> Result<(), ReadErr>
        ensures { AddsLine report_form result self.old (ReportLine.Call line) self.new }
    {
        let stamp = u64::from(line.stamp);
        if !self.is_counted() || stamp < self.least || stamp >= self.calls {
            return Err(ReadErr::Bad);
        }
        if let Class::Same = line.class {
            return Err(ReadErr::Bad);
        }
        self.lines.push(line)?;
        self.least = stamp + 1;
        Ok(())
    }

    fn add_end(&mut self) -> Result<(), ReadErr>
        ensures { AddsLine report_form result self.old ReportLine.End self.new }
    {
        if !self.is_counted() || !self.has_right_counts() {
            return Err(ReadErr::Bad);
        }
        self.stage = Stage::Ended;
        Ok(())
    }

    // Whether all counts came.
    fn is_counted(&self) -> bool
        ensures { result ≡ is_counted self.now }
    {
        matches!(self.stage, Stage::Called) && self.counts.len() == Class::ALL.len()
    }

    // Whether the counts are those of the lines.
    fn has_right_counts(&self) -> bool
        ensures { (result ≡ true) ↔ (self.now.counts ≡ counts_in self.now.calls self.now.lines) }
    {
        let counts = counts_of(self.calls, self.lines.as_slice());
        self.counts.as_slice() == counts.as_slice()
    }

    /// The report with these lines.
    pub(crate) fn into_report(self) -> Report
        ensures { result ≡ record { calls = self.calls; counts = counts_in self.calls self.lines; lines = self.lines } }
    {
        let counts = counts_of(self.calls, self.lines.as_slice());
        Report {
            calls: self.calls,
            counts,
            lines: self.lines,
        }
    }
}

// The counts that these lines give, of so many calls.
fn counts_of(calls: u64, lines: &[Line]) -> [u64; 9]
    ensures { result ≡ counts_in calls lines.now }
{
    [
        calls.saturating_sub(lines.len() as u64),
        count_of(lines, Class::NewError),
        count_of(lines, Class::GoneError),
        count_of(lines, Class::MutatedError),
        count_of(lines, Class::RowsModified),
        count_of(lines, Class::RowsFetched),
        count_of(lines, Class::RowContents),
        count_of(lines, Class::Images),
        count_of(lines, Class::Shape),
    ]
}

// How many of the lines are of a class.
fn count_of(lines: &[Line], class: Class) -> u64
    ensures { result ≡ count_in lines.now class }
{
    let mut count = 0;
    for line in lines {
        if line.class as u8 == class as u8 {
            count += 1;
        }
    }
    count
}
