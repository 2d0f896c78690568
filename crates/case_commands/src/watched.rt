//! Files whose written names are noted, and a host whose port is.

ghost use Rattle.desk_files.specs.Hosts.{HostAccount};
ghost use Rattle.desk_files.specs.Outside.{Account, FileMap};

use desk_files::{Failed, FileErr, Files, Host, WriteErr};
use desk_values::{Bytes, Copied, List, Memory, Txt};
use std::alloc::Global;

/// Files, and the names of those that were to be written.
#[derive(Drop)]
pub struct Watched<F: Drop> {
    /// The files.
    pub files: F,
    /// The names, in the order of the writes.
    pub names: List<Txt>,
}

impl<F: Drop> Watched<F> {
    /// These files, of which none was written so far.
    pub fn new(alloc: Global, files: F) -> Watched<F> {
        Watched {
            files,
            names: List::new(alloc),
        }
    }
}

impl<F: Files + Drop> Files for Watched<F> {
    ghost account = { λ s. F.account s.files };

    fn read(&mut self, name: &Txt) -> Result<Bytes, FileErr> {
        self.files.read(name)
    }

    fn write(&mut self, name: &Txt, bytes: &[u8]) -> Result<(), WriteErr> {
        self.names.push(name.copy()?)?;
        self.files.write(name, bytes)
    }
}

/// A host, and the port at which it was asked for connections.
#[derive(Drop)]
pub struct Asked<H: Drop> {
    /// The host.
    pub host: H,
    /// The port, where it was asked.
    pub port: Option<u16>,
}

impl<H: Host + Drop> Host for Asked<H> {
    type In = H::In;

    type Out = H::Out;

    ghost account = { λ s. H.account s.host };

    fn listen(&mut self, port: u16) -> Result<(), Failed> {
        self.port = Some(port);
        self.host.listen(port)
    }

    fn accept(&mut self) -> Result<Option<(Self::In, Self::Out)>, Failed> {
        self.host.accept()
    }

    fn back(&mut self, input: Self::In, output: Self::Out) -> Result<(), Memory> {
        self.host.back(input, output)
    }
}
