//! Which sessions each lane serves.

ghost use Rattle.std.specs.Prelude.{◌≡◌, ◌≤◌, [], IfOk};
ghost use Rattle.desk_values.specs.Limits.{session_limit};
ghost use Rattle.replay_lanes.specs.Inside.Seats.{noted_sessions, with_lane, with_session};
ghost use Rattle.replay_lanes.specs.Sessions.{is_seated, lane_sessions, seats, sessions, takes_part};

use desk_values::{Captured, List, Memory, Reserved, SESSION_LIMIT, Stamps};
use std::alloc::Global;

/// By lane the sessions that it serves, ascending: those with a call whose number leaves the lane's where it is divided by how many
/// lanes there are. A lane without sessions is left out.
pub fn seats_of(alloc: Global, calls: &[Captured], lanes: u32) -> Result<List<Stamps>, Memory>
    requires { 1 ≤ lanes }
    ensures { IfOk result (λ its. its ≡ seats calls.now lanes) }
{
    let mut seats = List::new(alloc);
    for lane in 0..lanes {
        let its = lane_of(alloc, calls, lane, lanes)?;
        if !its.is_empty() {
            seats.push(its)?;
        }
    }
    Ok(seats)
}

/// The sessions with a call, ascending.
pub fn sessions_of(alloc: Global, calls: &[Captured]) -> Result<Stamps, Memory>
    ensures { IfOk result (λ its. its ≡ sessions calls.now) }
{
    lane_of(alloc, calls, 0, 1)
}

// The sessions of one lane.
fn lane_of(alloc: Global, calls: &[Captured], lane: u32, lanes: u32) -> Result<Stamps, Memory>
    requires { 1 ≤ lanes }
    ensures { IfOk result (λ its. its ≡ lane_sessions calls.now lanes lane) }
{
    let mut its = List::new(alloc);
    for session in 0..SESSION_LIMIT as u32 {
        if is_seated(calls, lanes, lane, session) {
            its.push(session)?;
        }
    }
    Ok(its)
}

// Whether a session is one of a lane's.
fn is_seated(calls: &[Captured], lanes: u32, lane: u32, session: u32) -> bool
    requires { 1 ≤ lanes }
    ensures { result ≡ is_seated calls.now lanes lane session }
{
    session % lanes == lane && takes_part(calls, session)
}

// Whether a session has a call.
fn takes_part(calls: &[Captured], session: u32) -> bool
    ensures { result ≡ takes_part calls.now session }
{
    calls.iter().any(|call| call.session == session)
}

/// Notes the sessions of a lane.
pub fn join(noted: &mut [bool; 64], lane: &[u32])
    ensures { noted.new ≡ with_lane noted.old lane.now }
{
    for session in lane {
        note(noted, *session as usize);
    }
}

// Notes a session, where there is such a one.
fn note(noted: &mut [bool; 64], session: usize)
    ensures { noted.new ≡ with_session noted.old session }
{
    if session < noted.len() {
        noted[session] = true;
    }
}

/// The lane of the noted sessions, ascending, where an empty one is given that has room for all. It takes no memory then.
pub fn home_of(empty: Reserved<u32>, noted: &[bool; 64]) -> Reserved<u32>
    ensures { empty.items ≡ [] → session_limit ≤ empty.spare → result.items ≡ noted_sessions noted.now }
{
    let mut home = empty;
    for session in 0..SESSION_LIMIT as u32 {
        if noted[session as usize] {
            let _ = home.push(session);
        }
    }
    home
}
