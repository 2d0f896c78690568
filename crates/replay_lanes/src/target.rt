use std::sync::{Mutex, Wait};

/// What answers the calls that lanes start. Lanes share it.
pub trait Target<C>: Sync {
    /// Why it answers no more.
    type Refusal: Send + Drop;

    /// Answers a call that a lane has started, under as many holds of the desk's lock as that takes. After an `Err` the desk is
    /// stopped, and the lane ends.
    fn answer<R: Wait>(&self, rt: &R, desk: &Mutex<C>, k: u32) -> Result<(), Self::Refusal>;
}
