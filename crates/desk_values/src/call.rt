ghost use Rattle.std.specs.Prelude.{◌≡◌, ◌↔◌, IsTrue};

use crate::fault::Fault;
use crate::memory::{Copied, Memory};
use crate::text::Txt;
use crate::value::{Binds, Images, RowList, Values};
use crate::well_formed::{all_draws, is_good_outcome};

/// What a client asks of the server.
#[derive(Drop)]
pub enum Call {
    /// Connect to a service.
    Connect(Txt),
    /// Run a statement with the values of its binds.
    Sql(Txt, Binds),
    /// End the session.
    Disconnect,
}

impl Copied for Call {
    fn copy(&self) -> Result<Call, Memory> {
        match self {
            Call::Connect(service) => Ok(Call::Connect(service.copy()?)),
            Call::Sql(text, binds) => Ok(Call::Sql(text.copy()?, binds.copy()?)),
            Call::Disconnect => Ok(Call::Disconnect),
        }
    }
}

/// What came of a call.
#[derive(Drop)]
pub enum Outcome {
    /// The rows of a SELECT.
    Rows(RowList),
    /// How many rows were written.
    Count(u64),
    /// What a COMMIT wrote, by ascending row.
    Committed(Images),
    /// A transaction was rolled back.
    RolledBack,
    /// A transaction was set read-only.
    Marked,
    /// The session is connected.
    Connected,
    /// The session has ended.
    Disconnected,
    /// The call was refused.
    Refused(Fault),
}

impl Copied for Outcome {
    fn copy(&self) -> Result<Outcome, Memory> {
        match self {
            Outcome::Rows(rows) => Ok(Outcome::Rows(rows.copy()?)),
            Outcome::Count(count) => Ok(Outcome::Count(*count)),
            Outcome::Committed(images) => Ok(Outcome::Committed(images.copy()?)),
            Outcome::RolledBack => Ok(Outcome::RolledBack),
            Outcome::Marked => Ok(Outcome::Marked),
            Outcome::Connected => Ok(Outcome::Connected),
            Outcome::Disconnected => Ok(Outcome::Disconnected),
            Outcome::Refused(fault) => Ok(Outcome::Refused(*fault)),
        }
    }
}

/// The answer to a call.
#[derive(Drop)]
pub struct Reply {
    /// What came of it.
    pub outcome: Outcome,
    /// The values that it drew, by ascending sequence.
    pub draws: Values,
    /// The number of the row that an INSERT made.
    pub made: Option<u64>,
}

impl Reply {
    ghost use Rattle.desk_values.specs.Good.{HasGoodShape, IsGoodReply, misses_savepoint};

    /// Whether the reply can be written as a text. No row is empty, nor is what an image leaves; images stand by rising
    /// row, in tables up to 31; and only draws stand among the draws.
    pub fn good(&self) -> bool
        ensures text { IsTrue result ↔ IsGoodReply self.now }
        ensures shape { IsTrue result ↔ HasGoodShape self.now }
    {
        if let Some(row) = &self.made {
            let _row = *row;
        }
        is_good_outcome(&self.outcome) && all_draws(self.draws.as_slice())
    }

    /// A reply of a good shape has a text, since its numbers and texts are within the limits of their types. It costs
    /// nothing.
    pub fn know_good(&self)
        requires { HasGoodShape self.now }
        ensures { IsGoodReply self.now }
    {
        prove!(self.good());
    }

    /// Whether it tells that a savepoint is not there.
    pub fn misses_savepoint(&self) -> bool
        ensures { result ≡ misses_savepoint self.now.outcome }
    {
        matches!(self.outcome, Outcome::Refused(Fault::NoSavepoint))
    }
}

impl Copied for Reply {
    fn copy(&self) -> Result<Reply, Memory> {
        Ok(Reply {
            outcome: self.outcome.copy()?,
            draws: self.draws.copy()?,
            made: self.made,
        })
    }
}
