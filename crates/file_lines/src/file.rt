ghost use Rattle.std.specs.Prelude.{◌≡◌, ℕ, Bool, List as Bytes};
ghost use Rattle.file_lines.specs.File.{Adds};

use desk_values::ReadErr;

/// What the lines of a file have said so far.
pub trait LineFile {
    /// What they can have said.
    ghost State: { Type 0 };

    /// What they have said.
    ghost state: { Self → State };

    /// The line with this text may come in this state, and leads to that.
    ghost comes: { State → Bytes ℕ → State → Type 0 };

    /// Whether the last line came.
    ghost done: { State → Bool };

    /// The file with the line of this text, which has no line feed, behind those that came. `Bad` exactly where it may not
    /// come next. A refusal leaves nothing of the file: it is taken by value, and only `Ok` gives it back.
    fn add(self, line: &[u8]) -> Result<Self, ReadErr>
    where
        Self: Sized,
        ensures { Adds result state (comes (state self) line.now) };

    /// Whether the last line came.
    fn is_done(&self) -> bool
        ensures { result ≡ done (state self.now) };
}
