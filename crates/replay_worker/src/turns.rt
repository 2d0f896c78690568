//! What a lane does where its call is answered.

ghost use Rattle.std.specs.Prelude.{◌≡◌, true, OnOk, OnErr};
ghost use Rattle.replay_history.specs.History.{IsWaiting};
ghost use Rattle.replay_core.specs.Desk.{IsAnswer};

use desk_values::Memory;
use replay_core::Desk;
use replay_lanes::Target;
use std::sync::{Mutex, Wait};

/// The desk's own server, as a target of lanes: one hold of the lock answers a call.
#[derive(Clone, Copy)]
pub(crate) struct Own;

impl Target<Desk> for Own {
    type Refusal = Memory;

    fn answer<R: Wait>(&self, rt: &R, desk: &Mutex<Desk>, k: u32) -> Result<(), Memory> {
        settle(&mut desk.lock(rt), k)
    }
}

/// Answers a call, where it is started and not answered. Want of memory stops the desk.
pub(crate) fn settle(desk: &mut Desk, k: u32) -> Result<(), Memory>
    ensures ok { OnOk result (IsWaiting desk.old.history k → IsAnswer desk.old k desk.new) }
    ensures none { (IsWaiting desk.old.history k → ⊥) → desk.new ≡ desk.old }
    ensures err { OnErr result (desk.new ≡ record desk.old { stopped = true }) }
{
    if !desk.waiting(k) {
        return Ok(());
    }
    match desk.answer(k) {
        Ok(()) => Ok(()),
        Err(Memory) => {
            desk.halt();
            Err(Memory)
        }
    }
}
