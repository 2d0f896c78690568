ghost use Rattle.std.specs.Prelude.{◌≡◌, Ok, Some};
ghost use Rattle.desk_files.specs.Hosts.{after_accept, after_back, none_handed};

use std::marker::Model;

/// What a host hands out: at which port it listens, how many connections were taken, and how many given back. The two counts stand
/// still at the last value of their counters.
#[derive(Drop)]
pub(crate) struct Handing {
    port: Option<u16>,
    taken: u64,
    backs: u64,
}

impl Model for Handing {
    ghost use Rattle.desk_files.specs.Hosts.{Handed};

    ghost Value = { Handed };

    ghost view = { λ a. record { port = a.port; taken = a.taken; backs = a.backs } };
}

impl Handing {
    /// Nothing so far.
    pub(crate) fn new() -> Handing
        ensures { result ≡ none_handed }
    {
        Handing {
            port: None,
            taken: 0,
            backs: 0,
        }
    }

    /// The host listens at this port.
    pub(crate) fn listens(&mut self, port: u16)
        ensures { self.new ≡ record self.old { port = Some port } }
    {
        self.port = Some(port);
    }

    /// Counts a connection, where one was taken.
    pub(crate) fn count<T>(&mut self, taken: &Option<T>)
        ensures { self.new ≡ after_accept (Ok taken.now) self.old }
    {
        match taken {
            Some(_) => self.taken = self.taken.saturating_add(1),
            None => {}
        }
    }

    /// Counts a connection that is given back.
    pub(crate) fn count_back(&mut self)
        ensures { self.new ≡ after_back self.old }
    {
        self.backs = self.backs.saturating_add(1);
    }
}
