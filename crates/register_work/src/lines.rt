//! What is printed of an errand that is done.

ghost use Rattle.std.specs.Prelude.{◌≡◌, ◌++◌, IfOk, OnOk};
ghost use Rattle.std.specs.List.{flat_map};
ghost use Rattle.replay_history.specs.Texts.{line, line_text};
ghost use Rattle.register_work.specs.Lines.{accepted_line, bad_report_line, comparison_text, counted, counts_text, difference_line, registered_line, run_line};

use desk_values::fields::append_u64;
use desk_values::{Bytes, List, Memory, Txt, Word};
use replay_history::{Class, Line, Report};
use run_register::{Difference, Differences};
use std::alloc::Global;

/// What is printed of a text that is no report: its name, and its first bad line.
pub fn bad_report_line(alloc: Global, name: &Txt, number: u64) -> Result<Bytes, Memory>
    ensures { IfOk result (λ line. line ≡ bad_report_line name.now number) }
{
    let mut line = List::new(alloc);
    line.append(b"bad report: ")?;
    line.append(name.as_str().as_bytes())?;
    line.append(b" line ")?;
    append_u64(number, &mut line)?;
    line.append(b"\n")?;
    Ok(line)
}

/// What is printed of a run that is registered.
pub(crate) fn registered_line(alloc: Global, name: &Txt, report: &Report) -> Result<Bytes, Memory>
    ensures { IfOk result (λ line. line ≡ registered_line name.now report.now) }
{
    let mut line = List::new(alloc);
    line.append(b"registered ")?;
    line.append(name.as_str().as_bytes())?;
    line.append(b": ")?;
    append_counts(report, &mut line)?;
    Ok(line)
}

// Appends how many calls there are, and how many of them differ.
fn append_counts(report: &Report, to: &mut Bytes) -> Result<(), Memory>
    ensures { OnOk result (to.new ≡ to.old ++ counts_text report.now) }
{
    append_counted(report.calls, " calls, ", to)?;
    append_counted(report.lines.len() as u64, " divergent\n", to)
}

// Appends how many there are, and of what.
fn append_counted(number: u64, words: &str, to: &mut Bytes) -> Result<(), Memory>
    ensures { OnOk result (to.new ≡ to.old ++ counted number words.now) }
{
    append_u64(number, to)?;
    to.append(words.as_bytes())
}

/// Appends the line of a run in the list of all.
pub(crate) fn append_run(name: &Txt, report: &Report, to: &mut Bytes) -> Result<(), Memory>
    ensures { OnOk result (to.new ≡ to.old ++ run_line name.now report.now) }
{
    to.append(name.as_str().as_bytes())?;
    to.append(b" ")?;
    append_u64(report.calls, to)?;
    to.append(b" ")?;
    append_u64(report.lines.len() as u64, to)?;
    to.append(b"\n")
}

/// What is printed of a divergence that is accepted.
pub(crate) fn accepted_line(
    alloc: Global,
    name: &Txt,
    stamp: u64,
    class: Class,
) -> Result<Bytes, Memory>
    ensures { IfOk result (λ line. line ≡ accepted_line name.now stamp class) }
{
    let mut line = List::new(alloc);
    line.append(b"accepted ")?;
    line.append(name.as_str().as_bytes())?;
    line.append(b" ")?;
    append_u64(stamp, &mut line)?;
    line.append(b" ")?;
    line.append(class.word().as_bytes())?;
    line.append(b"\n")?;
    Ok(line)
}

/// What is printed of two runs that are compared.
pub(crate) fn comparison_text(
    alloc: Global,
    a: &Txt,
    b: &Txt,
    found: &Differences,
) -> Result<Bytes, Memory>
    ensures { IfOk result (λ text. text ≡ comparison_text a.now b.now found.now) }
{
    let mut text = List::new(alloc);
    text.append(b"compare ")?;
    text.append(a.as_str().as_bytes())?;
    text.append(b" ")?;
    text.append(b.as_str().as_bytes())?;
    text.append(b"\n")?;
    append_differences(found.as_slice(), &mut text)?;
    text.append(b"end\n")?;
    Ok(text)
}

fn append_differences(found: &[Difference], to: &mut Bytes) -> Result<(), Memory>
    ensures { OnOk result (to.new ≡ to.old ++ flat_map difference_line found.now) }
{
    for difference in found {
        append_difference(difference, to)?;
    }
    Ok(())
}

fn append_difference(difference: &Difference, to: &mut Bytes) -> Result<(), Memory>
    ensures { OnOk result (to.new ≡ to.old ++ difference_line difference.now) }
{
    match difference {
        Difference::New(line) => append_line("new ", line, to),
        Difference::Gone(line) => append_line("gone ", line, to),
        Difference::Changed(line, class) => append_changed(line, *class, to),
    }
}

// Appends a word, and a run's line.
fn append_line(word: &str, differing: &Line, to: &mut Bytes) -> Result<(), Memory>
    ensures { OnOk result (to.new ≡ to.old ++ (word.now ++ line (line_text differing.now))) }
{
    to.append(word.as_bytes())?;
    append_fields(differing, to)?;
    to.append(b"\n")
}

fn append_changed(differing: &Line, class: Class, to: &mut Bytes) -> Result<(), Memory>
    ensures { OnOk result (to.new ≡ to.old ++ difference_line (Difference.Changed differing.now class)) }
{
    to.append(b"changed ")?;
    append_fields(differing, to)?;
    to.append(b" ")?;
    to.append(class.word().as_bytes())?;
    to.append(b"\n")
}

// Appends where the call stands, and how it differs.
fn append_fields(differing: &Line, to: &mut Bytes) -> Result<(), Memory>
    ensures { OnOk result (to.new ≡ to.old ++ line_text differing.now) }
{
    append_u64(u64::from(differing.stamp), to)?;
    to.append(b" ")?;
    append_u64(u64::from(differing.session), to)?;
    to.append(b" ")?;
    append_u64(u64::from(differing.place), to)?;
    to.append(b" ")?;
    to.append(differing.class.word().as_bytes())
}
