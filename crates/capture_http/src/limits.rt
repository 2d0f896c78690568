use http_requests::{BODY_LIMIT, HEAD_LIMIT};

/// How many requests are answered on a connection.
pub const REQUEST_LIMIT: u32 = 1_000_000;

/// How many bytes are asked for at a time.
pub(crate) const READ_LIMIT: usize = 8192;

/// How many bytes a request may have.
pub(crate) const REQUEST_BYTES: usize = HEAD_LIMIT + BODY_LIMIT as usize;
