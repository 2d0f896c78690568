/// How many bytes a request's head may have.
pub const HEAD_LIMIT: usize = 8192;

/// How many fields a request's head may have.
pub const FIELD_LIMIT: usize = 64;

/// How many bytes a request's body may have.
pub const BODY_LIMIT: u64 = 65_536;

/// How many digits the length of a body may have.
pub const DIGIT_LIMIT: usize = 10;
