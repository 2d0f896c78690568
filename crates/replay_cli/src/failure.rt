//! Why a command did not do its work, with its line and its status.

ghost use Rattle.std.specs.Prelude.{◌≡◌, ◌++◌, ◌∷◌, [], IfOk, OnOk};
ghost use Rattle.std.specs.Fmt.{decimal};
ghost use Rattle.desk_files.specs.declared.fault.WriteErr.{WriteErr as Unwritten};
ghost use Rattle.capture_format.specs.SessionFile.{number_text};
ghost use Rattle.desk_values.specs.Text.{reply_text};
ghost use Rattle.capture_serve.specs.declared.failing.Finding.{Finding as Found};
ghost use Rattle.replay_cli.specs.declared.failure.Failure.TheVariants.{OutOfMemory};
ghost use Rattle.replay_cli.specs.Lines.{cause_text, failure_line, failure_status, finding_line, refusal_line, refusal_status, said_text};

use crate::unsent::Unsent;
use crate::unshown::Unshown;
use capture_format::append_reply;
use capture_recorder::Said;
use capture_serve::Finding;
use desk_values::fields::append_u64;
use desk_values::{Bytes, List, Memory, Reply, Txt};
use prepare_plan::Refusal as Illegal;
use register_work::{Unkept, bad_report_line};
use std::alloc::Global;

/// Why a command is refused, by its words and the files alone.
#[derive(Drop)]
pub enum Refusal {
    /// There is no file of this name.
    Missing(Txt),
    /// The file of this name is too long.
    TooLong(Txt),
    /// The file of this name has this first line that may not stand there.
    BadLine(Txt, u64),
    /// The report of this name has this first line that may not stand there.
    BadReport(Txt, u64),
    /// The remap file's record of this number, from 1, is refused.
    BadRemap(u64),
    /// The change file's record of this number, from 1, is refused.
    BadChange(u64),
    /// The capture is not legal.
    NotLegal(Illegal),
    /// What was to be shown of a replay is not, for this cause.
    Unshown(Unshown),
}

/// Why a command did not do its work.
#[derive(Drop)]
pub enum Failure {
    /// The words are no command.
    BadCommand,
    /// It is refused.
    Refused(Refusal),
    /// What was served was compared, and this differs.
    Differs(Finding),
    /// What is asked of the keeper is not done, for this cause.
    NotDone(Unkept),
    /// A replay against another server came to no end, for this cause.
    NotSent(Unsent),
    /// A device failed.
    DeviceFault,
    /// Want of memory.
    OutOfMemory,
}

impl From<Memory> for Failure {
    ghost from_gives = { λ _ e. e ≡ OutOfMemory };

    fn from(_error: Memory) -> Failure {
        Failure::OutOfMemory
    }
}

impl Refusal {
    /// The status that the program ends with.
    pub fn status(&self) -> u8
        ensures { result ≡ refusal_status self.now }
    {
        match self {
            Refusal::Missing(_) => 4,
            Refusal::TooLong(_) => 8,
            Refusal::BadLine(_, _) => 3,
            Refusal::BadReport(_, _) => 13,
            Refusal::BadRemap(_) | Refusal::BadChange(_) => 7,
            Refusal::NotLegal(_) => 3,
            Refusal::Unshown(cause) => cause.status(),
        }
    }

    /// The line that the program prints.
    pub fn line(&self, alloc: Global) -> Result<Bytes, Memory>
        ensures { IfOk result (λ line. line ≡ refusal_line self.now) }
    {
        match self {
            Refusal::Missing(name) => line_of(alloc, "missing: ", name.as_str()),
            Refusal::TooLong(name) => line_of(alloc, "too long: ", name.as_str()),
            Refusal::BadLine(name, line) => bad_line(alloc, name, *line),
            Refusal::BadReport(name, line) => bad_report_line(alloc, name, *line),
            Refusal::BadRemap(row) => bad_row(alloc, "bad remap: row ", *row),
            Refusal::BadChange(row) => bad_row(alloc, "bad change: row ", *row),
            Refusal::NotLegal(cause) => illegal_line(alloc, cause),
            Refusal::Unshown(cause) => cause.line(alloc),
        }
    }
}

impl Failure {
    /// The status that the program ends with.
    pub fn status(&self) -> u8
        ensures { result ≡ failure_status self.now }
    {
        match self {
            Failure::BadCommand => 2,
            Failure::Refused(refusal) => refusal.status(),
            Failure::Differs(_) => 9,
            Failure::NotDone(cause) => cause.status(),
            Failure::NotSent(cause) => cause.status(),
            Failure::DeviceFault => 5,
            Failure::OutOfMemory => 6,
        }
    }

    /// The line that the program prints.
    pub fn line(&self, alloc: Global) -> Result<Bytes, Memory>
        ensures { IfOk result (λ line. line ≡ failure_line self.now) }
    {
        match self {
            Failure::BadCommand => line_of(alloc, "bad command", ""),
            Failure::Refused(refusal) => refusal.line(alloc),
            Failure::Differs(finding) => finding_line(alloc, finding),
            Failure::NotDone(cause) => cause.line(alloc),
            Failure::NotSent(cause) => cause.line(alloc),
            Failure::DeviceFault => line_of(alloc, "device fault", ""),
            Failure::OutOfMemory => line_of(alloc, "out of memory", ""),
        }
    }
}

/// Two texts and a line feed.
pub(crate) fn line_of(alloc: Global, first: &str, second: &str) -> Result<Bytes, Memory>
    ensures { IfOk result (λ line. line ≡ first.now ++ (second.now ++ 10 ∷ [])) }
{
    let mut line = List::new(alloc);
    line.append(first.as_bytes())?;
    line.append(second.as_bytes())?;
    line.append(b"\n")?;
    Ok(line)
}

fn bad_line(alloc: Global, name: &Txt, number: u64) -> Result<Bytes, Memory>
    ensures { IfOk result (λ line. line ≡ refusal_line (Refusal.BadLine name.now number)) }
{
    let mut line = List::new(alloc);
    line.append(b"bad capture: ")?;
    line.append(name.as_str().as_bytes())?;
    line.append(b" line ")?;
    append_u64(number, &mut line)?;
    line.append(b"\n")?;
    Ok(line)
}

/// Words, a number and a line feed.
fn bad_row(alloc: Global, words: &str, row: u64) -> Result<Bytes, Memory>
    ensures { IfOk result (λ line. line ≡ words.now ++ (decimal row ++ 10 ∷ [])) }
{
    let mut line = List::new(alloc);
    line.append(words.as_bytes())?;
    append_u64(row, &mut line)?;
    line.append(b"\n")?;
    Ok(line)
}

fn illegal_line(alloc: Global, cause: &Illegal) -> Result<Bytes, Memory>
    ensures { IfOk result (λ line. line ≡ refusal_line (Refusal.NotLegal cause.now)) }
{
    let mut line = List::new(alloc);
    line.append(b"bad capture: ")?;
    append_cause(cause, &mut line)?;
    line.append(b"\n")?;
    Ok(line)
}

/// Appends what is wrong with a capture.
fn append_cause(cause: &Illegal, to: &mut Bytes) -> Result<(), Memory>
    ensures { OnOk result (to.new ≡ to.old ++ cause_text cause.now) }
{
    match cause {
        Illegal::TooMany { calls } => {
            append_u64(*calls, to)?;
            to.append(b" calls")
        }
        Illegal::Stamp { stamp } => append_at("stamp ", *stamp, to),
        Illegal::Number {
            stamp,
            written,
            right,
        } => append_numbers(*stamp, *written, *right, to),
        Illegal::Seen {
            stamp,
            written,
            right,
        } => append_seen(*stamp, *written, *right, to),
        Illegal::Times { stamp } => append_at("times at stamp ", *stamp, to),
        Illegal::Stranger { stamp } => append_at("unknown id at stamp ", *stamp, to),
        Illegal::Reply {
            stamp,
            written,
            right,
        } => append_replies(*stamp, written, right, to),
        Illegal::Memory => Ok(()),
    }
}

/// Appends words and a stamp.
pub(crate) fn append_at(words: &str, stamp: u32, to: &mut Bytes) -> Result<(), Memory>
    ensures { OnOk result (to.new ≡ to.old ++ (words.now ++ decimal stamp)) }
{
    to.append(words.as_bytes())?;
    append_u64(u64::from(stamp), to)
}

fn append_numbers(stamp: u32, written: u64, right: u64, to: &mut Bytes) -> Result<(), Memory>
    ensures { OnOk result (to.new ≡ to.old ++ cause_text (Illegal.Number stamp written right)) }
{
    append_at("stamp ", stamp, to)?;
    to.append(b" has number ")?;
    append_number(written, to)?;
    to.append(b", not ")?;
    append_number(right, to)?;
    Ok(())
}

/// Appends the number of a commit, `-` for none.
fn append_number(number: u64, to: &mut Bytes) -> Result<(), Memory>
    ensures { OnOk result (to.new ≡ to.old ++ number_text number) }
{
    if number == 0 {
        to.append(b"-")
    } else {
        append_u64(number, to)
    }
}

fn append_seen(stamp: u32, written: u64, right: u64, to: &mut Bytes) -> Result<(), Memory>
    ensures { OnOk result (to.new ≡ to.old ++ cause_text (Illegal.Seen stamp written right)) }
{
    append_at("stamp ", stamp, to)?;
    to.append(b" saw ")?;
    append_u64(written, to)?;
    to.append(b", not ")?;
    append_u64(right, to)
}

fn append_replies(stamp: u32, written: &Reply, right: &Reply, to: &mut Bytes) -> Result<(), Memory>
    ensures { OnOk result (to.new ≡ to.old ++ cause_text (Illegal.Reply stamp written.now right.now)) }
{
    append_at("stamp ", stamp, to)?;
    to.append(b" replied ")?;
    append_reply(written, to)?;
    to.append(b", not ")?;
    append_reply(right, to)
}

/// What was found to differ.
fn finding_line(alloc: Global, finding: &Finding) -> Result<Bytes, Memory>
    ensures { IfOk result (λ line. line ≡ finding_line finding.now) }
{
    match finding {
        Finding::Start => line_of(alloc, "mismatch: start", ""),
        Finding::Mismatch {
            session,
            place,
            kept,
            answered,
        } => mismatch_line(alloc, *session, *place, kept, answered),
        Finding::Refusal { session, n } => {
            let mut line = List::new(alloc);
            append_at("mismatch: session ", *session, &mut line)?;
            append_at(" refusal ", *n, &mut line)?;
            line.append(b"\n")?;
            Ok(line)
        }
    }
}

/// A place of a session, and the replies that differ there.
fn mismatch_line(
    alloc: Global,
    session: u32,
    place: u32,
    kept: &Option<Said>,
    answered: &Option<Said>,
) -> Result<Bytes, Memory>
    ensures { IfOk result (λ line. line ≡ finding_line (Found.Mismatch session place kept.now answered.now)) }
{
    let mut line = List::new(alloc);
    append_at("mismatch: session ", session, &mut line)?;
    append_at(" place ", place, &mut line)?;
    line.append(b": ")?;
    append_said(kept, &mut line)?;
    line.append(b" / ")?;
    append_said(answered, &mut line)?;
    line.append(b"\n")?;
    Ok(line)
}

/// Appends a reply, `-` where there is no call.
fn append_said(said: &Option<Said>, to: &mut Bytes) -> Result<(), Memory>
    ensures { OnOk result (to.new ≡ to.old ++ said_text said.now) }
{
    match said {
        Some(said) => append_reply(&said.reply, to),
        None => to.append(b"-"),
    }
}
