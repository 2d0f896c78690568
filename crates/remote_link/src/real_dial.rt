ghost use Rattle.std.specs.Prelude.{◌≡◌, None, Some, IfOk, IsOk, nat_lt, if◌then◌else◌};
ghost use Rattle.desk_files.specs.Hosts.{accept_ending};
ghost use Rattle.desk_files.specs.Outside.{counted, raised};
ghost use Rattle.remote_link.specs.Dials.{failed_by};
ghost use Rattle.remote_link.specs.Lines.{no_dials};

use crate::dial::Dial;
use crate::http_link::HttpLink;
use crate::link::Link;
use desk_files::{Failed, RealSink, RealSource};
use desk_values::Memory;
use std::alloc::Global;
use std::io;
use std::marker::Model;
use std::net::{Ipv4Addr, Net, TcpStream};

/// Lines to a server at a port of 127.0.0.1. It tells nothing of them. Contracts see its counts.
#[derive(Drop)]
pub struct RealDial<'a, R> {
    alloc: Global,
    system: &'a R,
    faults: u64,
    port: Option<u16>,
    dials: u64,
    failed: u64,
    backs: u64,
}

impl<'a, R> Model for RealDial<'a, R> {
    ghost use Rattle.remote_link.specs.Lines.{DialCounts};

    ghost Value = { DialCounts };

    ghost view = { λ a. record { faults = a.faults; port = a.port; dials = a.dials; failed = a.failed; backs = a.backs } };
}

impl<'a, R> RealDial<'a, R> {
    /// A dial over the network of `system`, which was not asked so far.
    pub fn new(system: &'a R, alloc: Global) -> Self
        ensures { result ≡ no_dials }
    {
        RealDial {
            alloc,
            system,
            faults: 0,
            port: None,
            dials: 0,
            failed: 0,
            backs: 0,
        }
    }

    fn count_fault(&mut self)
        ensures { self.new ≡ record self.old { faults = raised self.old.faults } }
    {
        self.faults = self.faults.saturating_add(1);
    }
}

impl<R: Net<Stream = TcpStream>> Dial for RealDial<'_, R> {
    type Line = HttpLink<RealSource<TcpStream>, RealSink<TcpStream>>;

    ghost account = { λ s. record { content = None; faults = s.faults; port = s.port; dials = s.dials; failed = s.failed; backs = s.backs } };

    fn dial(
        &mut self,
        port: u16,
    ) -> Result<HttpLink<RealSource<TcpStream>, RealSink<TcpStream>>, Failed>
        ensures fresh { IfOk result (λ line. line.faults ≡ 0) }
        ensures count { self.new.faults ≡ counted (accept_ending result) self.old.faults }
        ensures dialled { self.new.dials ≡ raised self.old.dials }
        ensures failed { self.new.failed ≡ failed_by result self.old.failed }
        ensures port { self.new.port ≡ Some port }
        ensures backs { self.new.backs ≡ self.old.backs }
    {
        self.dials = self.dials.saturating_add(1);
        self.port = Some(port);
        match ends(self.system, port) {
            Ok((input, output)) => Ok(HttpLink::new(self.alloc, input, output)),
            Err(_) => {
                self.failed = self.failed.saturating_add(1);
                self.count_fault();
                Err(Failed)
            }
        }
    }

    /// Closes the stream, by letting its two ends go. It never answers `Memory`.
    fn back(
        &mut self,
        line: HttpLink<RealSource<TcpStream>, RealSink<TcpStream>>,
    ) -> Result<(), Memory>
        ensures ok { IsOk result }
        ensures count { self.new.faults ≡ (if nat_lt 0 line.faults then raised self.old.faults else self.old.faults) }
        ensures dialled { self.new.dials ≡ self.old.dials }
        ensures failed { self.new.failed ≡ self.old.failed }
        ensures port { self.new.port ≡ self.old.port }
        ensures backs { self.new.backs ≡ raised self.old.backs }
    {
        self.backs = self.backs.saturating_add(1);
        if line.faults() > 0 {
            self.count_fault();
        }
        Ok(())
    }
}

// The two ends of a new stream. What is written goes out at once, since requests are short.
fn ends<R: Net<Stream = TcpStream>>(
    system: &R,
    port: u16,
) -> io::Result<(RealSource<TcpStream>, RealSink<TcpStream>)> {
    let stream = TcpStream::connect(system, (Ipv4Addr::LOCALHOST, port))?;
    stream.set_nodelay(true)?;
    let output = RealSink::new(stream.try_clone()?);
    Ok((RealSource::new(stream), output))
}
