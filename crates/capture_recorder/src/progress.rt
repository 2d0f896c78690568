/// How far a session has come.
#[derive(Clone, Copy, Debug, PartialEq, Eq)]
pub(crate) struct Progress {
    /// How many calls it has.
    pub(crate) calls: u32,
    /// When the last of them ended.
    pub(crate) ended: u64,
}
