ghost use Rattle.std.specs.Prelude.{◌≡◌, ◌++◌, ◌∷◌, ◌↔◌, ◌≤◌, [], length, slice_get, take, IfOk, OnOk, OnErr, IsNone, ◌==◌};
ghost use Rattle.std.specs.Option.{option_copied};

use crate::memory::{Copied, Memory};
use std::alloc::Global;
use std::marker::Model;

/// A list that grows at its end.
#[derive(Drop)]
pub struct List<T> {
    items: Vec<T>,
}

impl<T> Model for List<T> {
    ghost use Rattle.std.specs.Prelude.{List as Sequence};

    ghost Value = { Sequence T };

    ghost view = { λ a. a.items.items };
}

impl<T> List<T> {
    /// An empty list.
    pub fn new(alloc: Global) -> Self
        ensures { result ≡ [] }
    {
        List {
            items: Vec::new(alloc),
        }
    }

    /// How many items there are.
    pub fn len(&self) -> usize
        ensures { result ≡ length self.now }
    {
        self.items.len()
    }

    /// Whether there is none.
    pub fn is_empty(&self) -> bool
        ensures { result ≡ (length self.now == 0) }
    {
        self.items.is_empty()
    }

    /// The item at a place from 0.
    pub fn get(&self, i: usize) -> Option<&T>
        ensures value { option_copied result ≡ slice_get self.now i }
        ensures none { IsNone result ↔ (length self.now ≤ i) }
    {
        self.items.get(i)
    }

    /// The items in order.
    pub fn as_slice(&self) -> &[T]
        ensures { result.now ≡ self.now }
    {
        self.items.as_slice()
    }
}

impl<T> List<T> {
    /// The list of the items of a vector.
    pub fn from_vec(items: Vec<T>) -> Self
        ensures { result ≡ items.items }
    {
        List { items }
    }

    /// An empty list with room for so many items.
    pub fn with_capacity(alloc: Global, capacity: usize) -> Result<Self, Memory>
        ensures { IfOk result (λ list. list ≡ []) }
    {
        Ok(List::from_vec(Vec::with_capacity(alloc, capacity)?))
    }

    /// The allocator that the items are kept by.
    pub fn allocator(&self) -> Global {
        *self.items.allocator()
    }

    /// Gives back the room that the items do not need.
    pub fn fit(&mut self)
        ensures { self.new ≡ self.old }
    {
        self.items.shrink_to_fit();
    }

    /// The vector of the items.
    pub fn into_vec(self) -> Vec<T>
        ensures { result.items ≡ self }
    {
        self.items
    }
}

impl List<u8> {
    /// Adds bytes at the end. An `Err` changes nothing.
    pub fn append(&mut self, bytes: &[u8]) -> Result<(), Memory>
        ensures ok { OnOk result (self.new ≡ self.old ++ bytes.now) }
        ensures err { OnErr result (self.new ≡ self.old) }
    {
        self.items.extend_from_slice(bytes)?;
        Ok(())
    }

    /// Cuts the bytes back to the first `len` where the writer behind them was refused, and hands on its answer. So
    /// what is written in parts is appended whole or not at all: take `len` before the first part.
    pub fn cut_back_on_err(&mut self, len: usize, written: Result<(), Memory>) -> Result<(), Memory>
        ensures answer { result ≡ written }
        ensures ok { OnOk written (self.new ≡ self.old) }
        ensures err { OnErr written (self.new ≡ take len self.old) }
    {
        if written.is_err() {
            self.items.truncate(len);
        }
        written
    }
}

impl<T: Drop> List<T> {
    /// Adds an item at the end. An `Err` changes nothing.
    pub fn push(&mut self, item: T) -> Result<(), Memory>
        ensures ok { OnOk result (self.new ≡ self.old ++ item ∷ []) }
        ensures err { OnErr result (self.new ≡ self.old) }
    {
        self.items.push(item)?;
        Ok(())
    }
}

impl<T: Copied> List<T> {
    /// A list of copies of these items, in just the room that they need.
    pub fn from_slice(alloc: Global, items: &[T]) -> Result<Self, Memory>
        ensures { IfOk result (λ list. list ≡ items.now) }
    {
        let mut list = List::with_capacity(alloc, items.len())?;
        for item in items {
            list.push(item.copy()?)?;
        }
        Ok(list)
    }
}

impl<T: Copied> Copied for List<T> {
    fn copy(&self) -> Result<List<T>, Memory> {
        List::from_slice(*self.items.allocator(), self.items.as_slice())
    }
}
