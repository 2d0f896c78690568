ghost use Rattle.std.specs.Prelude.{◌≡◌, ◌+◌, ◌<◌, ◌≤◌, ◌↔◌, ◌++◌, ◌∷◌, [], length, slice_get, map, IfOk, IsOk, OnOk, OnErr, IsNone, ◌==◌};
ghost use Rattle.std.specs.Option.{option_copied};

use crate::list::List;
use crate::memory::{Copied, Memory};
use std::alloc::Global;
use std::marker::Model;

/// A list that grows at its end, into room that can be taken beforehand. Contracts see its items and
/// `spare`, how many more it takes without asking for memory.
#[derive(Drop)]
pub struct Reserved<T> {
    items: Vec<T>,
}

impl<T> Model for Reserved<T> {
    ghost use Rattle.std.specs.Prelude.{◌-◌, vec_len};
    ghost use Rattle.std.specs.Vec.{vec_capacity};
    ghost use Rattle.desk_values.specs.Room.{Room};

    ghost Value = { Room T };

    ghost view = { λ a. record { items = a.items.items; spare = vec_capacity a.items - vec_len a.items } };
}

impl<T> Reserved<T> {
    /// An empty list.
    pub fn new(alloc: Global) -> Self
        ensures { result.items ≡ [] }
    {
        Reserved {
            items: Vec::new(alloc),
        }
    }

    /// How many items there are.
    pub fn len(&self) -> usize
        ensures { result ≡ length self.now.items }
    {
        self.items.len()
    }

    /// Whether there is none.
    pub fn is_empty(&self) -> bool
        ensures { result ≡ (length self.now.items == 0) }
    {
        self.items.is_empty()
    }

    /// The item at a place from 0.
    pub fn get(&self, i: usize) -> Option<&T>
        ensures value { option_copied result ≡ slice_get self.now.items i }
        ensures none { IsNone result ↔ (length self.now.items ≤ i) }
    {
        self.items.get(i)
    }

    /// The items in order.
    pub fn as_slice(&self) -> &[T]
        ensures { result.now ≡ self.now.items }
    {
        self.items.as_slice()
    }

    /// Makes the spare at least `more`.
    pub fn reserve(&mut self, more: u32) -> Result<(), Memory>
        ensures items { self.new.items ≡ self.old.items }
        ensures ok { OnOk result (more ≤ self.new.spare) }
        ensures err { OnErr result (self.new ≡ self.old) }
    {
        self.items.reserve(more as usize)?;
        Ok(())
    }

    /// The vector of the items.
    pub fn into_vec(self) -> Vec<T>
        ensures { result.items ≡ self.items }
    {
        self.items
    }
}

impl<T: Drop> Reserved<T> {
    /// Adds an item at the end. An `Err` changes nothing, and does not come while there is room to spare.
    pub fn push(&mut self, item: T) -> Result<(), Memory>
        ensures ok { OnOk result (self.new.items ≡ self.old.items ++ item ∷ []) }
        ensures err { OnErr result (self.new.items ≡ self.old.items) }
        ensures succeeds { 0 < self.old.spare → IsOk result }
        ensures spare { self.old.spare ≤ self.new.spare + 1 }
    {
        self.items.push(item)?;
        Ok(())
    }
}

impl<T: Copied> Reserved<T> {
    /// A list of equal items. What room it has is left open.
    pub fn copy(&self) -> Result<Reserved<T>, Memory>
        ensures { IfOk result (λ copy. copy.items ≡ self.now.items) }
    {
        let mut copy = Reserved::new(*self.items.allocator());
        for item in self.items.as_slice() {
            copy.push(item.copy()?)?;
        }
        Ok(copy)
    }
}

impl<T: Copied> List<Reserved<T>> {
    /// A list of lists with equal items. What room they have is left open.
    pub fn copy(&self) -> Result<List<Reserved<T>>, Memory>
        ensures { IfOk result (λ copy. map (λ list. list.items) copy ≡ map (λ list. list.items) self.now) }
    {
        let mut copy = List::new(self.allocator());
        for list in self.as_slice() {
            copy.push(list.copy()?)?;
        }
        Ok(copy)
    }
}
