//! What the program tells of the connections that it serves, on a terminal alone: at which port it listens, and each connection
//! that comes and that has ended.

ghost use Rattle.std.specs.Prelude.{◌≡◌, ℕ, List};
ghost use Rattle.desk_files.specs.Outside.{Account};
ghost use Rattle.desk_files.specs.Hosts.{HostAccount};

use desk_files::{Failed, Host, Sink, Source};
use desk_values::Memory;

/// A host that tells what becomes of its connections.
#[derive(Drop)]
pub struct TellingHost<'a, H: Drop, E> {
    host: H,
    shown: &'a E,
    came: u32,
    on_terminal: bool,
}

impl<'a, H: Drop, E> TellingHost<'a, H, E> {
    /// This host, which without a terminal tells nothing.
    pub fn new(host: H, shown: &'a E, on_terminal: bool) -> Self {
        TellingHost {
            host,
            shown,
            came: 0,
            on_terminal,
        }
    }
}

/// What a connection sends. It tells once that it has ended.
#[derive(Drop)]
pub struct TellingSource<'a, S: Drop, E> {
    source: S,
    shown: &'a E,
    number: u32,
    tells: bool,
}

impl<S: Drop, E: Eprint> TellingSource<'_, S, E> {
    fn tell_end(&mut self)
        ensures { self.new.source ≡ self.old.source }
    {
        if self.tells {
            self.tells = false;
            let _ = eprintln!(self.shown; "connection {} has ended", self.number);
        }
    }
}

impl<S: Source + Drop, E: Eprint> Source for TellingSource<'_, S, E> {
    ghost account = { λ s. S.account s.source };

    fn read(&mut self, buffer: &mut [u8]) -> Result<usize, Failed> {
        let read = self.source.read(buffer);
        match read {
            Ok(n) if n > 0 => {}
            _ => self.tell_end(),
        }
        read
    }

    fn close(&mut self) {
        self.tell_end();
        self.source.close();
    }
}

impl<'a, H: Host + Drop, E: Eprint + Sync> Host for TellingHost<'a, H, E> {
    type In = TellingSource<'a, H::In, E>;

    type Out = H::Out;

    ghost account = { λ s. H.account s.host };

    fn listen(&mut self, port: u16) -> Result<(), Failed> {
        self.host.listen(port)?;
        if self.on_terminal {
            let _ = eprintln!(self.shown; "listening at 127.0.0.1:{port}");
        }
        Ok(())
    }

    fn accept(&mut self) -> Result<Option<(Self::In, Self::Out)>, Failed> {
        let Some((source, output)) = self.host.accept()? else {
            return Ok(None);
        };
        self.came = self.came.saturating_add(1);
        if self.on_terminal {
            let _ = eprintln!(self.shown; "connection {} came", self.came);
        }
        let input = TellingSource {
            source,
            shown: self.shown,
            number: self.came,
            tells: self.on_terminal,
        };
        Ok(Some((input, output)))
    }

    fn back(&mut self, mut input: Self::In, output: Self::Out) -> Result<(), Memory> {
        input.tell_end();
        self.host.back(input.source, output)
    }
}
