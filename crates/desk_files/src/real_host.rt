ghost use Rattle.std.specs.Prelude.{◌≡◌, None, IfOk, IfSome, IsSome, IsOk};
ghost use Rattle.desk_files.specs.Outside.{counted, raised};
ghost use Rattle.desk_files.specs.Answers.{print_ending};
ghost use Rattle.desk_files.specs.Hosts.{accept_ending, after_accept, after_back, after_listen, none_handed};

use crate::fault::Failed;
use crate::handing::Handing;
use crate::host::Host;
use crate::real_stream::{RealSink, RealSource};
use desk_values::Memory;
use std::io;
use std::io::ErrorKind;
use std::marker::Model;
use std::net::{Ipv4Addr, Net, Shutdown, TcpListener, TcpStream};

/// The connections that come in at a port of 127.0.0.1, which it does not tell. Before `listen` each
/// `accept` fails. Contracts see the count of faults, and what it handed out.
#[derive(Drop)]
pub struct RealHost<'a, R> {
    system: &'a R,
    listener: Option<TcpListener>,
    faults: u64,
    handed: Handing,
}

impl<'a, R> Model for RealHost<'a, R> {
    ghost use Rattle.desk_files.specs.MemoryHosts.{HostCounts};

    ghost Value = { HostCounts };

    ghost view = { λ a. record { faults = a.faults; handed = a.handed } };
}

impl<'a, R> RealHost<'a, R> {
    /// A host that does not listen yet, over the network of `system`, with no fault so far.
    pub fn new(system: &'a R) -> Self
        ensures { result ≡ record { faults = 0; handed = none_handed } }
    {
        RealHost {
            system,
            listener: None,
            faults: 0,
            handed: Handing::new(),
        }
    }

    fn count_fault(&mut self)
        ensures { self.new ≡ record self.old { faults = raised self.old.faults } }
    {
        self.faults = self.faults.saturating_add(1);
    }
}

impl<R: Net<Listener = TcpListener, Stream = TcpStream>> Host for RealHost<'_, R> {
    type In = RealSource<TcpStream>;

    type Out = RealSink<TcpStream>;

    ghost account = { λ s. record { content = None; faults = s.faults; handed = s.handed } };

    fn listen(&mut self, port: u16) -> Result<(), Failed>
        ensures { self.new ≡ record {
          faults = counted (print_ending result) self.old.faults;
          handed = after_listen result port self.old.handed;
        } }
    {
        match TcpListener::bind(self.system, (Ipv4Addr::LOCALHOST, port)) {
            Ok(listener) => {
                self.listener = Some(listener);
                self.handed.listens(port);
                Ok(())
            }
            Err(_) => {
                self.count_fault();
                Err(Failed)
            }
        }
    }

    /// Waits until a connection comes in. It never answers `None`.
    fn accept(&mut self) -> Result<Option<(RealSource<TcpStream>, RealSink<TcpStream>)>, Failed>
        ensures some { IfOk result (λ taken. IsSome taken) }
        ensures fresh { IfOk result (λ taken. IfSome taken (λ pair. (pair.0 ≡ 0) × (pair.1 ≡ 0))) }
        ensures count { self.new ≡ record {
          faults = counted (accept_ending result) self.old.faults;
          handed = after_accept result self.old.handed;
        } }
    {
        match accept_ends(&self.listener) {
            Ok(ends) => {
                let taken = Some(ends);
                self.handed.count(&taken);
                Ok(taken)
            }
            Err(_) => {
                self.count_fault();
                Err(Failed)
            }
        }
    }

    /// Closes the stream, unless it was let go. It never answers `Memory`.
    fn back(
        &mut self,
        input: RealSource<TcpStream>,
        _output: RealSink<TcpStream>,
    ) -> Result<(), Memory>
        ensures ok { IsOk result }
        ensures count { self.new ≡ record self.old { handed = after_back self.old.handed } }
    {
        self.handed.count_back();
        if let Some(stream) = input.stream() {
            // A stream that the other side has closed cannot be shut down, and is closed all the same.
            let _ = stream.shutdown(Shutdown::Both);
        }
        Ok(())
    }
}

// The next connection's two ends. What is written goes out at once, since answers are short.
fn accept_ends(
    listener: &Option<TcpListener>,
) -> io::Result<(RealSource<TcpStream>, RealSink<TcpStream>)>
    ensures { IfOk result (λ pair. (pair.0 ≡ 0) × (pair.1 ≡ 0)) }
{
    let Some(listener) = listener else {
        return Err(io::Error::from(ErrorKind::NotConnected));
    };
    let (stream, _) = listener.accept()?;
    stream.set_nodelay(true)?;
    let output = RealSink::new(stream.try_clone()?);
    Ok((RealSource::new(stream), output))
}
