//! Items with a separator between.

ghost use Rattle.std.specs.Prelude.{ℕ, List as Bytes, Option};
ghost use Rattle.desk_values.specs.Fields.{pieces};
ghost use Rattle.desk_values.specs.Reading.{Reads, each_of};

use desk_values::fields::cut;
use desk_values::{List, ReadErr};
use std::alloc::Global;

/// What stands between separators.
pub(crate) trait Piece: Drop + Sized {
    /// The item that a piece spells.
    ghost reading: { Bytes ℕ → Option Self };

    /// The item that all the bytes of a piece spell. `Bad` where they spell none.
    fn read(alloc: Global, bytes: &[u8]) -> Result<Self, ReadErr>
        ensures { Reads result (reading bytes.now) };
}

/// The items of the pieces between separators, at least one. `Bad` where a piece spells none.
pub(crate) fn read_pieces<T: Piece>(
    alloc: Global,
    bytes: &[u8],
    separator: u8,
) -> Result<List<T>, ReadErr>
    ensures { Reads result (each_of T.reading (pieces separator bytes.now)) }
{
    let mut items = List::new(alloc);
    let mut rest = bytes;
    while let Some((piece, after)) = cut(rest, separator) {
        items.push(T::read(alloc, piece)?)?;
        rest = after;
    }
    items.push(T::read(alloc, rest)?)?;
    Ok(items)
}
