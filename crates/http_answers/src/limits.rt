/// How many bytes an answer's body may have: 128 MiB.
pub const BODY_LIMIT: u64 = 134_217_728;
