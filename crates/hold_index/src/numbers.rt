//! Numbers, and of which session each is.

ghost use Rattle.std.specs.Prelude.{◌≡◌, ℕ, None, Some, true, nat_eq, if◌then◌else◌};
ghost use Rattle.hold_index.specs.Inside.Numbers.{session_of};

use std::alloc::Global;
use std::collections::HashMap;

/// Of which session numbers are.
#[derive(Drop)]
pub struct Numbers {
    sessions: HashMap<u64, u32>,
}

impl Numbers {
    /// No number. Takes no memory.
    pub fn new(alloc: Global) -> Numbers
        ensures { (n : ℕ) → session_of result n ≡ None }
    {
        Numbers {
            sessions: HashMap::new(alloc),
        }
    }

    /// The session of a number, if it is of one.
    pub fn session_of(&self, number: u64) -> Option<u32>
        ensures { result ≡ session_of self.now number }
    {
        self.sessions.get(&number).copied()
    }

    /// The number is this session's from now on, if memory is there for it.
    pub fn add(&mut self, number: u64, session: u32) -> bool
        ensures { result ≡ true → (n : ℕ) → session_of self.new n ≡ (if nat_eq number n then Some session else session_of self.old n) }
    {
        self.sessions.insert(number, session).is_ok()
    }

    /// The number is of no session from now on. Takes no memory.
    pub fn take_out(&mut self, number: u64)
        ensures { (n : ℕ) → session_of self.new n ≡ (if nat_eq number n then None else session_of self.old n) }
    {
        let _ = self.sessions.remove(&number);
    }
}
