ghost use Rattle.std.specs.Prelude.{◌≡◌, IfOk, IfSome};
ghost use Rattle.desk_files.specs.Outside.{Counts};
ghost use Rattle.desk_files.specs.Answers.{print_ending};
ghost use Rattle.desk_files.specs.Hosts.{Accepts, GivesBack, HostAccount, accept_ending, after_accept, after_back, after_listen, either_failed};

use crate::fault::Failed;
use crate::sink::Sink;
use crate::source::Source;
use desk_values::Memory;

/// Where connections come in. Each is a source and a sink, which is given back when it is done with. An
/// object may tell the connections left and those given back; every object counts its faults, which never fall, and tells at
/// which port it listens, how many connections it handed out and how many it was given back.
pub trait Host {
    /// What a connection sends.
    type In: Source + Send + Drop;

    /// What a connection is answered.
    type Out: Sink + Send + Drop;

    /// The connections left and those given back, where the object tells them, how many calls failed, and what it handed out.
    ghost account: { Self → HostAccount };

    /// Begins to take connections at a port of this machine.
    fn listen(&mut self, port: u16) -> Result<(), Failed>
        ensures content { (account self.new).content ≡ (account self.old).content }
        ensures counts { Counts (print_ending result) (account self.old).faults (account self.new).faults }
        ensures handed { (account self.new).handed ≡ after_listen result port (account self.old).handed };

    /// The first of the connections left. `None` where none is left. `Failed` takes none.
    fn accept(&mut self) -> Result<Option<(Self::In, Self::Out)>, Failed>
        ensures takes { Accepts Self.In.account Self.Out.account result (account self.old).content (account self.new).content }
        ensures fresh { IfOk result (λ taken. IfSome taken (λ pair.
            ((Self.In.account pair.0).faults ≡ 0) × ((Self.Out.account pair.1).faults ≡ 0))) }
        ensures counts { Counts (accept_ending result) (account self.old).faults (account self.new).faults }
        ensures handed { (account self.new).handed ≡ after_accept result (account self.old).handed };

    /// Gives a connection back. `Memory` lets the pair go, and it does not stand among those given back.
    fn back(&mut self, input: Self::In, output: Self::Out) -> Result<(), Memory>
        ensures gives_back { GivesBack (Self.In.account input).content (Self.Out.account output).content
            (either_failed (Self.In.account input).faults (Self.Out.account output).faults) result (account self.old).content (account self.new).content }
        ensures faults { (account self.new).faults ≡ (account self.old).faults }
        ensures handed { (account self.new).handed ≡ after_back (account self.old).handed };
}
