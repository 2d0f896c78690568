//! Why what was to be shown of a replay is not.

ghost use Rattle.std.specs.Prelude.{◌≡◌, ◌++◌, ◌∷◌, [], codes, IfOk};
ghost use Rattle.std.specs.Fmt.{decimal};
ghost use Rattle.replay_cli.specs.declared.unshown.Unshown.TheVariants.{NoCall as ThereIsNoCall, Unfit as IsUnfit};
ghost use Rattle.replay_cli.specs.Lines.{unshown_line, unshown_status};

use desk_values::fields::append_u64;
use desk_values::{Bytes, List, Memory, Txt};
use run_files::Misfit;
use std::alloc::Global;

/// Why what was to be shown of a replay is not.
#[derive(Drop)]
pub enum Unshown {
    /// The journal of this name has this first line that may not stand there.
    BadJournal(Txt, u64),
    /// The plain reads of this name have this first line that may not stand there.
    BadReads(Txt, u64),
    /// What the run left does not go together with the capture.
    Unfit(Misfit),
    /// There is no call with this stamp.
    NoCall(u64),
}

impl Unshown {
    /// The status that the program ends with.
    pub fn status(&self) -> u8
        ensures { result ≡ unshown_status self.now }
    {
        match self {
            Unshown::BadJournal(_, _) | Unshown::BadReads(_, _) => 16,
            Unshown::Unfit(_) => 17,
            Unshown::NoCall(_) => 14,
        }
    }

    /// The line that the program prints.
    pub fn line(&self, alloc: Global) -> Result<Bytes, Memory>
        ensures { IfOk result (λ line. line ≡ unshown_line self.now) }
    {
        match self {
            Unshown::BadJournal(name, line) => bad_line(alloc, "bad journal: ", name, *line),
            Unshown::BadReads(name, line) => bad_line(alloc, "bad plain reads: ", name, *line),
            Unshown::Unfit(found) => unfit_line(alloc, found),
            Unshown::NoCall(stamp) => no_call_line(alloc, *stamp),
        }
    }
}

// Words, a name and the number of its first bad line.
fn bad_line(alloc: Global, words: &str, name: &Txt, number: u64) -> Result<Bytes, Memory>
    ensures { IfOk result (λ line. line ≡ words.now ++ (name.now ++ (codes " line " ++ (decimal number ++ 10 ∷ [])))) }
{
    let mut line = List::new(alloc);
    line.append(words.as_bytes())?;
    line.append(name.as_str().as_bytes())?;
    line.append(b" line ")?;
    append_u64(number, &mut line)?;
    line.append(b"\n")?;
    Ok(line)
}

fn unfit_line(alloc: Global, found: &Misfit) -> Result<Bytes, Memory>
    ensures { IfOk result (λ line. line ≡ unshown_line (IsUnfit found.now)) }
{
    let text = found.text(alloc)?;
    let mut line = List::new(alloc);
    line.append(b"other replay: ")?;
    line.append(text.as_slice())?;
    line.append(b"\n")?;
    Ok(line)
}

fn no_call_line(alloc: Global, stamp: u64) -> Result<Bytes, Memory>
    ensures { IfOk result (λ line. line ≡ unshown_line (ThereIsNoCall stamp)) }
{
    let mut line = List::new(alloc);
    line.append(b"no such call: stamp ")?;
    append_u64(stamp, &mut line)?;
    line.append(b"\n")?;
    Ok(line)
}
