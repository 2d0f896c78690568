/// The longest path, in bytes.
pub const PATH_LIMIT: usize = 900;

/// The longest name of a run, in bytes.
pub const RUN_LIMIT: usize = 30;

/// How many lanes there are at most.
pub const LANE_LIMIT: u32 = 64;

/// How many connections are served at most: each is a session.
pub const CONNECTION_LIMIT: u32 = 64;

/// The greatest number of calls that are generated.
pub const GENERATED_LIMIT: u32 = 10_000;

/// The greatest port.
pub(crate) const PORT_LIMIT: u32 = 65_535;

/// The port that is served where none is said.
pub const DEFAULT_PORT: u16 = 7080;

/// The percentage of a pause that is kept where none is said: all of it.
pub(crate) const WHOLE: u32 = 100;
