ghost use Rattle.std.specs.Prelude.{◌≡◌, ◌++◌, ◌∷◌, [], IfOk, OnOk};
ghost use Rattle.std.specs.Fmt.{decimal};
ghost use Rattle.register_work.specs.Lines.{unkept_line, unkept_status};

use crate::lines::bad_report_line;
use desk_values::fields::append_u64;
use desk_values::{Bytes, List, Memory, Txt};
use std::alloc::Global;

/// Why an errand is not done.
#[derive(Drop)]
pub enum Unkept {
    /// There is no run of this name.
    NoRun(Txt),
    /// The run of this name has another report.
    OtherRun(Txt),
    /// What is kept under this name is no report; the number of its first bad line.
    BadRun(Txt, u64),
    /// The run has no call with this stamp.
    NoCall(u64),
    /// The first run and the second, of other numbers of calls, which stand behind their names.
    OtherCapture(Txt, u64, Txt, u64),
}

impl Unkept {
    /// The status that the program ends with.
    pub fn status(&self) -> u8
        ensures { result ≡ unkept_status self.now }
    {
        match self {
            Unkept::NoRun(_) => 11,
            Unkept::OtherRun(_) => 12,
            Unkept::BadRun(_, _) => 13,
            Unkept::NoCall(_) => 14,
            Unkept::OtherCapture(_, _, _, _) => 15,
        }
    }

    /// The line that the program prints.
    pub fn line(&self, alloc: Global) -> Result<Bytes, Memory>
        ensures { IfOk result (λ line. line ≡ unkept_line self.now) }
    {
        match self {
            Unkept::NoRun(name) => named_line(alloc, "no such run: ", name),
            Unkept::OtherRun(name) => named_line(alloc, "other run: ", name),
            Unkept::BadRun(name, line) => bad_report_line(alloc, name, *line),
            Unkept::NoCall(stamp) => no_call_line(alloc, *stamp),
            Unkept::OtherCapture(a, n, b, m) => other_capture_line(alloc, a, *n, b, *m),
        }
    }
}

// Words and a name.
fn named_line(alloc: Global, words: &str, name: &Txt) -> Result<Bytes, Memory>
    ensures { IfOk result (λ line. line ≡ words.now ++ (name.now ++ 10 ∷ [])) }
{
    let mut line = List::new(alloc);
    line.append(words.as_bytes())?;
    line.append(name.as_str().as_bytes())?;
    line.append(b"\n")?;
    Ok(line)
}

fn no_call_line(alloc: Global, stamp: u64) -> Result<Bytes, Memory>
    ensures { IfOk result (λ line. line ≡ unkept_line (Unkept.NoCall stamp)) }
{
    let mut line = List::new(alloc);
    line.append(b"no such call: stamp ")?;
    append_u64(stamp, &mut line)?;
    line.append(b"\n")?;
    Ok(line)
}

fn other_capture_line(alloc: Global, a: &Txt, n: u64, b: &Txt, m: u64) -> Result<Bytes, Memory>
    ensures { IfOk result (λ line. line ≡ unkept_line (Unkept.OtherCapture a.now n b.now m)) }
{
    let mut line = List::new(alloc);
    line.append(b"other capture: ")?;
    append_named(a, n, &mut line)?;
    line.append(b", ")?;
    append_named(b, m, &mut line)?;
    line.append(b"\n")?;
    Ok(line)
}

// Appends a name and a number.
fn append_named(name: &Txt, number: u64, to: &mut Bytes) -> Result<(), Memory>
    ensures { OnOk result (to.new ≡ to.old ++ (name.now ++ 32 ∷ decimal number)) }
{
    to.append(name.as_str().as_bytes())?;
    to.append(b" ")?;
    append_u64(number, to)
}
