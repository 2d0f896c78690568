ghost use Rattle.std.specs.Prelude.{◌≡◌, List as Sequence, Option as Maybe, IfOk};
ghost use Rattle.id_pairs.specs.Pairs.{IdPair};
ghost use Rattle.id_pairs.specs.Carrying.Carried.{carried_image, carried_number, carried_value, each_some};

use desk_values::{Copied, Image, List, Memory, Value};
use remap_ids::{Id, IdMap};
use std::alloc::Global;

// What can be carried from a captured run to a replayed one.
pub(crate) trait Carry: Drop {
    // What it is with each id replaced by its image, where each has one.
    ghost carried: { Sequence IdPair → Self → Maybe Self };

    // The same. `None` where an id has no image.
    fn carry(&self, alloc: Global, map: &IdMap) -> Result<Option<Self>, Memory>
    where
        Self: Sized,
        ensures { IfOk result (λ other. other ≡ carried map.now.pairs self.now) };
}

impl Carry for Value {
    ghost carried = { carried_value };

    fn carry(&self, _alloc: Global, map: &IdMap) -> Result<Option<Value>, Memory> {
        match Id::of_value(self) {
            Some(id) => Ok(map.image(id).map(|image| image.to_value())),
            None => Ok(Some(self.copy()?)),
        }
    }
}

impl<T: Carry> Carry for List<T> {
    ghost carried = { λ pairs. each_some (T.carried pairs) };

    fn carry(&self, alloc: Global, map: &IdMap) -> Result<Option<List<T>>, Memory> {
        let mut carried = List::new(alloc);
        for item in self.as_slice() {
            match item.carry(alloc, map)? {
                Some(other) => carried.push(other)?,
                None => return Ok(None),
            }
        }
        Ok(Some(carried))
    }
}

impl Carry for Image {
    ghost carried = { carried_image };

    fn carry(&self, alloc: Global, map: &IdMap) -> Result<Option<Image>, Memory> {
        let Some(row) = carried_number(map, self.row) else {
            return Ok(None);
        };
        let left = match &self.left {
            None => None,
            Some(values) => match values.carry(alloc, map)? {
                Some(others) => Some(others),
                None => return Ok(None),
            },
        };
        Ok(Some(Image {
            row,
            table: self.table,
            left,
        }))
    }
}

// The row that stands for a captured one.
fn carried_number(map: &IdMap, row: u64) -> Option<u64>
    ensures { result ≡ carried_number map.now.pairs row }
{
    match map.image(Id::Row(row)) {
        Some(Id::Row(other)) => Some(other),
        _ => None,
    }
}
