//! Laws of which calls are required. Each does nothing and is called by nobody: its contract is the law.

ghost use Rattle.std.specs.Prelude.{◌≡◌, ◌<◌, length, true};
ghost use Rattle.object_depends.specs.Facts.{AreSound};
ghost use Rattle.object_depends.specs.Required.{is_required};

use crate::fact::Fact;
use replay_history::Mode;

/// Of sound facts, what a call requires stands before it, in every mode. So no two calls wait for each other.
#[tactic(auto, using(crate::proofs::Sound::required_before))]
pub fn required_stands_before(facts: &[Fact], mode: Mode, k: u32, j: u32)
    requires sound { AreSound facts.now }
    requires k { k < length facts.now }
    requires required { is_required mode facts.now k j ≡ true }
    ensures { j < k }
{}
