ghost use Rattle.std.specs.Prelude.{◌≡◌, ◌+◌, ◌<◌, ◌≤◌, [], Some, length, slice_get, IfNone, IfSome, IsOk, OnOk, OnErr};
ghost use Rattle.std.specs.List.{Contains};
ghost use Rattle.id_pairs.specs.declared.Id.{Id as AnyId};
ghost use Rattle.id_pairs.specs.Pairs.{AreLike, IsIdMap, image_in, is_known, with_new};

use desk_values::Memory;
use id_pairs::Id;
use indexmap::{IndexMap, IndexSet};
use std::alloc::Global;
use std::marker::Model;

// Pairs of ids, none of which stands twice on one side. Contracts see the pairs in the order in which they came.
#[derive(Drop)]
pub(crate) struct Pairs {
    by_captured: IndexMap<Id, Id>,
    replayed: IndexSet<Id>,
}

impl Model for Pairs {
    ghost use Rattle.std.specs.Prelude.{◌≡◌, map, min};
    ghost use Rattle.id_pairs.specs.Pairs.{IsIdMap};
    ghost use Rattle.indexmap.specs.IndexMap.{spare};
    ghost use Rattle.indexmap.specs.IndexSet.{spare as spare_of_set};
    ghost use Rattle.remap_ids.specs.Inside.{PairsView};

    ghost Value = { PairsView };

    ghost view = { λ a. record { pairs = a.by_captured.entries; spare = min (spare a.by_captured) (spare_of_set a.replayed) } };

    ghost invariant = { λ a. IsIdMap a.by_captured.entries × (a.replayed.keys ≡ map (λ pair. pair.1) a.by_captured.entries) };
}

impl Pairs {
    // No pairs.
    pub(crate) fn new(alloc: Global) -> Pairs
        ensures { result.pairs ≡ [] }
    {
        Pairs {
            by_captured: IndexMap::new(alloc),
            replayed: IndexSet::new(alloc),
        }
    }

    pub(crate) fn allocator(&self) -> Global {
        *self.by_captured.allocator()
    }

    // How many pairs there are.
    pub(crate) fn len(&self) -> usize
        ensures { result ≡ length self.now.pairs }
    {
        self.by_captured.len()
    }

    // The pair at a place.
    pub(crate) fn pair_at(&self, place: usize) -> (Id, Id)
        requires { place < length self.now.pairs }
        ensures { slice_get self.now.pairs place ≡ Some result }
    {
        let (captured, replayed) = self.by_captured.get_index(place).unwrap();
        (*captured, *replayed)
    }

    // The replayed id of a captured one.
    pub(crate) fn image(&self, id: Id) -> Option<Id>
        ensures image { result ≡ image_in self.now.pairs id }
        ensures map { IsIdMap self.now.pairs }
    {
        self.by_captured.get(&id).copied()
    }

    // The captured id of a replayed one.
    pub(crate) fn origin(&self, id: Id) -> Option<Id>
        ensures some { IfSome result (λ captured. Contains self.now.pairs (captured, id)) }
        ensures none { IfNone result ((captured : AnyId) → ¬ Contains self.now.pairs (captured, id)) }
    {
        match self.replayed.get_index_of(&id) {
            Some(place) => {
                let (captured, _) = self.pair_at(place);
                Some(captured)
            }
            None => None,
        }
    }

    // Makes the spare at least `more`.
    pub(crate) fn reserve(&mut self, more: usize) -> Result<(), Memory>
        ensures pairs { self.new.pairs ≡ self.old.pairs }
        ensures ok { OnOk result (more ≤ self.new.spare) }
        ensures succeeds { more ≤ self.old.spare → IsOk result }
        ensures spare { self.old.spare ≤ self.new.spare }
    {
        self.by_captured.reserve(more)?;
        self.replayed.reserve(more)?;
        Ok(())
    }

    // Whether one of the two ids has a pair on its side.
    fn has_either(&self, captured: Id, replayed: Id) -> bool
        ensures { result ≡ is_known self.now.pairs (captured, replayed) }
    {
        self.by_captured.contains_key(&captured) || self.replayed.contains(&replayed)
    }

    // Adds a pair, unless one of the two ids has one on its side already.
    pub(crate) fn add(&mut self, captured: Id, replayed: Id)
        requires room { 0 < self.old.spare }
        requires like { AreLike captured replayed }
        ensures pairs { self.new.pairs ≡ with_new self.old.pairs (captured, replayed) }
        ensures spare { self.old.spare ≤ self.new.spare + 1 }
        ensures whole { self.old.spare + length self.old.pairs ≤ self.new.spare + length self.new.pairs }
        ensures kept { length self.old.pairs ≤ length self.new.pairs }
    {
        if self.has_either(captured, replayed) {
            return;
        }
        self.by_captured.insert(captured, replayed).unwrap();
        self.replayed.insert(replayed).unwrap();
    }
}
