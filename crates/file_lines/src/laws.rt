//! Bytes come to one thing alone.

ghost use Rattle.std.specs.Prelude.{◌≡◌, ℕ, Bool, List, Result};
ghost use Rattle.file_lines.specs.File.{SaysOne, Is};

use crate::file::LineFile;

/// Where the text of a line says one thing, bytes come to one thing alone: the state after the file that they are, or the
/// number of the first bad line.
pub fn said_once<F: LineFile>()
    ensures { SaysOne F.comes → (state : F.State) (bytes : List ℕ) (said other : Result F.State ℕ)
        → Is F.comes F.done state 1 bytes said → Is F.comes F.done state 1 bytes other → said ≡ other }
{}
