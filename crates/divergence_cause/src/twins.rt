//! Whether two views are one but for ids.

ghost use Rattle.std.specs.Prelude.{◌↔◌, IfOk, IsTrue};
ghost use Rattle.divergence_cause.specs.Twins.{AreTwins};

use desk_values::Memory;
use remap_ids::IdMap;
use server_words::View;
use std::alloc::Global;

/// Whether the second view is the first with each id replaced by its image: savepoints one by one, all other lists as sets.
pub fn twin_views(alloc: Global, map: &IdMap, a: &View, b: &View) -> Result<bool, Memory>
    ensures { IfOk result (λ twins. IsTrue twins ↔ AreTwins map.now.pairs a.now b.now) }
{
    replay_walk::twin_views(alloc, map, a, b)
}
