use desk_values::{Call, Copied, Memory, Reply, Reserved};

/// What happens in a replay whose calls are answered elsewhere.
#[derive(Drop)]
pub enum RemoteEvent {
    /// The call with this stamp is started, with this pause.
    Start(u32, u64),
    /// This call is sent in its place.
    Sent(u32, Call),
    /// This reply came to it.
    Answer(u32, Reply),
}

impl Copied for RemoteEvent {
    fn copy(&self) -> Result<RemoteEvent, Memory> {
        match self {
            RemoteEvent::Start(k, pause) => Ok(RemoteEvent::Start(*k, *pause)),
            RemoteEvent::Sent(k, call) => Ok(RemoteEvent::Sent(*k, call.copy()?)),
            RemoteEvent::Answer(k, reply) => Ok(RemoteEvent::Answer(*k, reply.copy()?)),
        }
    }
}

/// The events of a replay in order, with room to spare.
pub type RemoteHistory = Reserved<RemoteEvent>;
