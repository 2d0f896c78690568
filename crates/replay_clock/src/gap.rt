ghost use Rattle.std.specs.Prelude.{◌≡◌, ◌≤◌, IfOk};
ghost use Rattle.desk_values.specs.Limits.{last_moment};
ghost use Rattle.replay_history.specs.Limits.{percent_limit};
ghost use Rattle.replay_history.specs.Gap.{pause_of};
ghost use Rattle.law_histories.specs.Places.{AreInPlace};
ghost use Rattle.replay_clock.specs.Gaps.{gaps_in};
ghost use Rattle.replay_clock.specs.Inside.{gap_after};

use desk_values::{CallList, Captured, Copied, List, Memory, SESSION_LIMIT};
use std::alloc::Global;

/// The time before a call of a capture.
#[derive(Clone, Copy, Debug, PartialEq, Eq)]
pub struct Gap {
    /// In microseconds: from the capture's start to a session's first call, else from the end of the session's call before.
    pub micros: u64,
    /// Whether it is the first call of its session.
    pub first: bool,
}

impl Copied for Gap {
    fn copy(&self) -> Result<Gap, Memory> {
        Ok(*self)
    }
}

/// The times before calls, by stamp.
pub type Gaps = List<Gap>;

/// So many hundredths of a time, rounded down.
pub fn pause(micros: u64, percent: u32) -> u64
    requires micros { micros ≤ last_moment }
    requires percent { percent ≤ percent_limit }
    ensures { result ≡ pause_of micros percent }
{
    micros * u64::from(percent) / 100
}

/// The times before the calls of a legal capture, by stamp.
pub fn gaps_of(alloc: Global, calls: &CallList) -> Result<Gaps, Memory>
    requires { AreInPlace calls.now.items }
    ensures { IfOk result (λ gaps. gaps ≡ gaps_in calls.now.items) }
{
    let mut ended = [0; SESSION_LIMIT];
    let mut gaps = List::new(alloc);
    for call in calls.as_slice() {
        let session = call.session as usize;
        gaps.push(gap_after(call, ended[session]))?;
        ended[session] = call.ended;
    }
    Ok(gaps)
}

// The time before a call, where the call of its session before it ended at a moment.
fn gap_after(call: &Captured, ended: u64) -> Gap
    ensures { result ≡ gap_after call.now ended }
{
    let first = call.place == 0;
    let micros = if first {
        call.began
    } else {
        call.began.saturating_sub(ended)
    };
    Gap { micros, first }
}
