/// Why no more connections were taken.
#[derive(Clone, Copy, Debug, PartialEq, Eq)]
pub(crate) enum Halt {
    /// The host failed.
    Failed,
    /// Want of memory for any.
    Memory,
}
