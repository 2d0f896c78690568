ghost use Rattle.std.specs.Prelude.{◌≡◌, ◌≤◌, ◌<◌, length, IfOk};
ghost use Rattle.object_depends.specs.Required.{required, last_of};

use crate::fact::FactList;
use crate::tally::{Tally, is_required, tallies};
use desk_values::{Copied, List, Memory, Stamps};
use replay_history::Mode;
use std::alloc::Global;
use std::marker::Model;

/// Which calls each call requires in one mode. Contracts see it as the facts and the mode.
#[derive(Drop)]
pub struct Needs {
    facts: FactList,
    mode: Mode,
    tallies: Vec<Tally>,
}

impl Model for Needs {
    ghost use Rattle.std.specs.Prelude.{◌≡◌, ◌≤◌, length};
    ghost use Rattle.object_depends.specs.NeedsView.{NeedsView};
    ghost use Rattle.object_depends.specs.Inside.{AreTallies};

    ghost Value = { NeedsView };

    ghost view = { λ a. record { facts = a.facts; mode = a.mode } };

    ghost invariant = { λ a. (length a.facts ≤ 100000) × (length a.tallies.items ≡ length a.facts)
        × AreTallies a.mode a.facts a.tallies.items (length a.facts) };
}

impl Needs {
    /// The needs of these calls.
    pub fn of(alloc: Global, facts: &FactList, mode: Mode) -> Result<Needs, Memory>
        requires { length facts.now ≤ 100000 }
        ensures { IfOk result (λ needs. needs ≡ record { facts = facts.now; mode = mode }) }
    {
        Ok(Needs {
            facts: List::from_slice(alloc, facts.as_slice())?,
            mode,
            tallies: tallies(alloc, facts.as_slice(), mode)?,
        })
    }

    /// The stamps that a call requires, ascending.
    pub fn required(&self, k: u32) -> Result<Stamps, Memory>
        requires { k < length self.now.facts }
        ensures { IfOk result (λ stamps. stamps ≡ required self.now.mode self.now.facts k) }
    {
        let facts = self.facts.as_slice();
        let mut stamps = List::new(self.facts.allocator());
        for j in 0..facts.len() {
            if is_required(self.mode, facts, k as usize, j) {
                stamps.push(j as u32)?;
            }
        }
        Ok(stamps)
    }

    /// How many stamps a call requires, and the greatest of them. It takes no memory, and looks at one place.
    pub fn count_last(&self, k: u32) -> (u32, Option<u32>)
        requires { k < length self.now.facts }
        ensures count { result.0 ≡ length (required self.now.mode self.now.facts k) }
        ensures last { result.1 ≡ last_of (required self.now.mode self.now.facts k) }
    {
        let tally = self.tallies[k as usize];
        (tally.count, tally.last)
    }
}
