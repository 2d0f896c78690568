ghost use Rattle.std.specs.Prelude.{◌≡◌, IfOk, Some};
ghost use Rattle.desk_files.specs.Hosts.{accept_ending};
ghost use Rattle.desk_files.specs.Outside.{Counts, raised};
ghost use Rattle.remote_link.specs.Dials.{CountsBack, DialAccount, GivesBack, IsNew, failed_by};

use crate::link::Link;
use desk_files::Failed;
use desk_values::Memory;

/// Where lines to a server come from. Each is given back when it is done with. An object may tell what was said on the lines
/// that were given back; every object tells the port that it was asked for last, and counts its faults, how often it was dialled, how
/// often that failed and how many lines it was given back. These counts never fall.
pub trait Dial {
    /// A line.
    type Line: Link + Send + Drop;

    /// What was said on each line that was given back, where the object tells it, and its counts.
    ghost account: { Self → DialAccount };

    /// A new line to the server at a port of this machine.
    fn dial(&mut self, port: u16) -> Result<Self::Line, Failed>
        ensures content { (account self.new).content ≡ (account self.old).content }
        ensures fresh { IfOk result (λ line. IsNew (Self.Line.account line).content (Self.Line.account line).faults) }
        ensures counts { Counts (accept_ending result) (account self.old).faults (account self.new).faults }
        ensures dialled { (account self.new).dials ≡ raised (account self.old).dials }
        ensures failed { (account self.new).failed ≡ failed_by result (account self.old).failed }
        ensures port { (account self.new).port ≡ Some port }
        ensures backs { (account self.new).backs ≡ (account self.old).backs };

    /// Gives a line back. `Memory` lets it go, and it does not stand among those given back. The count of faults rises where that
    /// of the line did.
    fn back(&mut self, line: Self::Line) -> Result<(), Memory>
        ensures gives_back { GivesBack (Self.Line.account line).content result (account self.old).content (account self.new).content }
        ensures counts { CountsBack (Self.Line.account line).faults (account self.old).faults (account self.new).faults }
        ensures dialled { (account self.new).dials ≡ (account self.old).dials }
        ensures failed { (account self.new).failed ≡ (account self.old).failed }
        ensures port { (account self.new).port ≡ (account self.old).port }
        ensures backs { (account self.new).backs ≡ raised (account self.old).backs };
}
