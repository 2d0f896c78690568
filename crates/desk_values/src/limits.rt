/// How many sessions a server has, and a capture at most. They are numbered from 0.
pub const SESSION_LIMIT: usize = 64;

/// The greatest moment of a call, in microseconds from the capture's start: some 11 days and a half.
pub const LAST_MOMENT: u64 = 1_000_000_000_000;
