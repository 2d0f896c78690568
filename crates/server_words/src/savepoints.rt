//! The savepoints of a session.

ghost use Rattle.std.specs.Prelude.{◌≡◌, ◌<◌, [], is_some, length, take, Some, IfSome, OnOk, OnErr};
ghost use Rattle.std.specs.List.{position};
ghost use Rattle.server_words.specs.Savepoints.{has_savepoint, is_named, with_savepoint};

use crate::session::Savepoint;
use desk_values::{Memory, Txt};
use std::alloc::Global;
use std::marker::Model;

/// Savepoints, the oldest first. Contracts see the list.
#[derive(Drop)]
pub struct Savepoints {
    points: Vec<Savepoint>,
}

impl Model for Savepoints {
    ghost use Rattle.std.specs.Prelude.{List};
    ghost use Rattle.server_words.specs.declared.session.Savepoint.{Savepoint as Point};

    ghost Value = { List Point };

    ghost view = { λ a. a.points.items };
}

impl Savepoints {
    /// None.
    pub fn new(alloc: Global) -> Self
        ensures { result ≡ [] }
    {
        Savepoints {
            points: Vec::new(alloc),
        }
    }

    /// How many there are.
    pub fn len(&self) -> usize
        ensures { result ≡ length self.now }
    {
        self.points.len()
    }

    /// The savepoints in order.
    pub fn as_slice(&self) -> &[Savepoint]
        ensures { result.now ≡ self.now }
    {
        self.points.as_slice()
    }

    /// The place of the one of this name.
    pub fn place_of(&self, name: &Txt) -> Option<usize>
        ensures place { result ≡ position (is_named name.now) self.now }
        ensures some { is_some result ≡ has_savepoint name.now self.now }
        ensures within { IfSome result (λ place. place < length self.now) }
    {
        self.first_of(name)
    }

    fn first_of(&self, name: &Txt) -> Option<usize>
        ensures { result ≡ position (is_named name.now) self.now }
    {
        self.points
            .iter()
            .position(|point| point.name.as_str() == name.as_str())
    }

    /// Sets one at the end, in the place of the one of its name. An `Err` changes nothing.
    pub fn set(&mut self, savepoint: Savepoint) -> Result<(), Memory>
        ensures ok { OnOk result (self.new ≡ with_savepoint self.old savepoint) }
        ensures err { OnErr result (self.new ≡ self.old) }
    {
        match self.place_of(&savepoint.name) {
            Some(place) => self.set_over(place, savepoint),
            None => self.set_new(savepoint),
        }
    }

    // In the place of the one there, which has its name.
    fn set_over(&mut self, place: usize, savepoint: Savepoint) -> Result<(), Memory>
        requires { Some place ≡ position (is_named savepoint.name) self.old }
        ensures ok { OnOk result (self.new ≡ with_savepoint self.old savepoint) }
        ensures err { OnErr result (self.new ≡ self.old) }
    {
        self.points.push(savepoint)?;
        self.points.remove(place);
        Ok(())
    }

    // Where none has its name.
    fn set_new(&mut self, savepoint: Savepoint) -> Result<(), Memory>
        requires { None ≡ position (is_named savepoint.name) self.old }
        ensures ok { OnOk result (self.new ≡ with_savepoint self.old savepoint) }
        ensures err { OnErr result (self.new ≡ self.old) }
    {
        self.points.push(savepoint)?;
        Ok(())
    }

    /// Drops all but the first, so many.
    pub fn keep(&mut self, count: usize)
        ensures { self.new ≡ take count self.old }
    {
        self.points.truncate(count);
    }
}
