use desk_values::{Call, Copied, List, Memory, Reply, Same};

/// A call that was sent, and the reply that came back.
#[derive(Drop)]
pub struct Heard {
    /// The call.
    pub call: Call,
    /// Its reply; `None` where none came.
    pub reply: Option<Reply>,
}

impl Copied for Heard {
    fn copy(&self) -> Result<Heard, Memory> {
        let call = self.call.copy()?;
        match &self.reply {
            Some(reply) => Ok(Heard {
                call,
                reply: Some(reply.copy()?),
            }),
            None => Ok(Heard { call, reply: None }),
        }
    }
}

impl Same for Heard {
    fn same(&self, other: &Heard) -> bool {
        self.call.same(&other.call) && self.reply.same(&other.reply)
    }
}

/// Calls that were sent, in order, with what came back.
pub type HeardList = List<Heard>;
