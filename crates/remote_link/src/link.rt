ghost use Rattle.std.specs.Prelude.{◌≡◌, List, IfOk};
ghost use Rattle.desk_files.specs.Outside.{Account, Counts};
ghost use Rattle.desk_values.specs.Good.{IsGoodReply};
ghost use Rattle.remote_link.specs.declared.heard.Heard.{Heard as HeardCall};
ghost use Rattle.remote_link.specs.Heard.{Notes, link_ending};

use crate::link_err::LinkErr;
use desk_values::{Call, Reply};

/// A line to a server: one session's calls go out by it, one after the other. An object may tell what was sent and what came
/// back; every object counts its faults, and that count never falls.
pub trait Link {
    /// The calls that were sent, each with its reply, where the object tells them, and how many calls failed.
    ghost account: { Self → Account (List HeardCall) };

    /// Sends a call, once, and gives the server's reply. After an `Err` the call may have been sent, and the line is not to
    /// be used again.
    fn call(&mut self, call: &Call) -> Result<Reply, LinkErr>
        ensures notes { Notes call.now result (account self.old).content (account self.new).content }
        ensures good { IfOk result IsGoodReply }
        ensures counts { Counts (link_ending result) (account self.old).faults (account self.new).faults };

    /// How many calls failed.
    fn faults(&self) -> u64
        ensures { result ≡ (account self.now).faults };
}
