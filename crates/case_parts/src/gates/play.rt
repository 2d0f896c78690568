ghost use Rattle.std.specs.Prelude.{◌≡◌, ◌≤◌, IfOk};

use anyhow::anyhow;
use commit_gate::Gate;
use object_depends::{FactList, Mode, are_sound};
use std::alloc::Global;
use std::marker::Model;

/// A gate, with the calls that are started and not answered.
#[derive(Drop)]
pub struct Play {
    gate: Gate,
    open: Vec<bool>,
}

impl Model for Play {
    ghost use Rattle.commit_gate.specs.Gates.{GateView};

    ghost Value = { GateView };

    ghost view = { λ a. a.gate };

    ghost use Rattle.case_parts.specs.Inside.{IsPlay};

    ghost invariant = { IsPlay };
}

impl Play {
    /// A gate where no call is started. `None` where the calls are not those of a capture.
    pub fn new(alloc: Global, facts: &FactList, mode: Mode) -> Result<Option<Play>, anyhow::Error> {
        if facts.len() > 100_000 || !are_sound(facts.as_slice()) {
            return Ok(None);
        }
        let open = vec![in alloc; false; facts.len()]?;
        let gate = Gate::new(alloc, facts, mode)?;
        Ok(Some(Play { gate, open }))
    }

    /// Its gate.
    pub fn gate(&self) -> &Gate {
        &self.gate
    }

    /// Starts a call if it is ready, and says so.
    pub fn start(&mut self, k: u32) -> bool {
        let stamp = k as usize;
        if stamp >= self.open.len() || !self.gate.ready(k) {
            return false;
        }
        self.gate.start(k);
        self.open[stamp] = true;
        true
    }

    /// Answers a call if it is started and not answered, and says so.
    pub fn answer(&mut self, k: u32) -> bool {
        let stamp = k as usize;
        if stamp >= self.open.len() || !self.open[stamp] {
            return false;
        }
        self.gate.answer(k);
        self.open[stamp] = false;
        true
    }

    /// All stamps that are ready.
    pub fn all_ready(&self, alloc: Global) -> Result<Vec<u32>, anyhow::Error> {
        let mut stamps = Vec::new(alloc);
        for stamp in 0..self.open.len() {
            let k = u32::try_from(stamp).map_err(|_| anyhow!("too many calls"))?;
            if self.gate.ready(k) {
                stamps.push(k)?;
            }
        }
        Ok(stamps)
    }
}
