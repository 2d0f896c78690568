/// How many calls a capture has at most.
pub const CALL_LIMIT: usize = 100_000;

/// How many hundredths of its time a pause is at most.
pub const PERCENT_LIMIT: u32 = 1_000;
