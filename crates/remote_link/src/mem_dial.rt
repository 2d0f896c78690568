ghost use Rattle.std.specs.Prelude.{◌≡◌, ◌++◌, ◌∷◌, [], ◌⊎◌, ◌↔◌, IfOk, IsErr, OnOk, OnErr, true, Some, slice_get, if◌then◌else◌, nat_lt};
ghost use Rattle.std.specs.Option.{option_copied};
ghost use Rattle.desk_files.specs.Outside.{raised};
ghost use Rattle.remote_link.specs.declared.mem_line.MemScript.{MemScript as Script};
ghost use Rattle.remote_link.specs.Lines.{is_failing, line_of, no_dials, said_on};

use crate::dial::Dial;
use crate::link::Link;
use crate::mem_line::{MemLine, MemScript, is_failing};
use desk_files::Failed;
use desk_values::{List, Memory, Stamps};
use std::alloc::Global;
use std::marker::Model;

/// What the lines of a dial in memory are to answer, in the order in which they are dialled.
pub type MemScripts = List<MemScript>;

/// A dial in memory, which tells what was said on the lines that were given back. It gives one line for each script. Its dials are
/// numbered from 0; those whose numbers were given to [`MemDial::new`] fail, and so do those past the scripts. A dial that fails
/// changes nothing but three of its counts and the port that it was asked for.
#[derive(Drop)]
pub struct MemDial {
    alloc: Global,
    scripts: Vec<MemScript>,
    fails: Stamps,
    faults: u64,
    port: Option<u16>,
    dials: u64,
    failed: u64,
    backs: u64,
    returned: Vec<MemLine>,
}

impl Model for MemDial {
    ghost use Rattle.remote_link.specs.Lines.{MemoryDial};

    ghost Value = { MemoryDial };

    ghost view = { λ a. record {
      scripts = a.scripts.items;
      fails = a.fails;
      counts = record { faults = a.faults; port = a.port; dials = a.dials; failed = a.failed; backs = a.backs };
      returned = a.returned.items;
    } };
}

impl MemDial {
    /// A dial that gives a line for each of these scripts. The dials with the numbers `fails` are to fail.
    pub fn new(alloc: Global, scripts: MemScripts, fails: Stamps) -> MemDial
        ensures { result ≡ record { scripts = scripts; fails = fails; counts = no_dials; returned = [] } }
    {
        MemDial {
            alloc,
            scripts: scripts.into_vec(),
            fails,
            faults: 0,
            port: None,
            dials: 0,
            failed: 0,
            backs: 0,
            returned: Vec::new(alloc),
        }
    }

    /// A line that was given back, by its place from 0; `None` exactly where there is none.
    pub fn given_back(&self, i: usize) -> Option<&MemLine>
        ensures { option_copied result ≡ slice_get self.now.returned i }
    {
        self.returned.get(i)
    }

    fn count_fault(&mut self)
        ensures { self.new ≡ record self.old { counts = record self.old.counts { faults = raised self.old.counts.faults } } }
    {
        self.faults = self.faults.saturating_add(1);
    }
}

impl Dial for MemDial {
    type Line = MemLine;

    ghost account = { λ s. record { content = Some (said_on s); faults = s.counts.faults; port = s.counts.port; dials = s.counts.dials; failed = s.counts.failed; backs = s.counts.backs } };

    fn dial(&mut self, port: u16) -> Result<MemLine, Failed>
        ensures ok { IfOk result (λ line. (script : Script) × (line ≡ line_of script) × (self.old.scripts ≡ script ∷ self.new.scripts)
            × (self.new ≡ record self.old { scripts = self.new.scripts; counts = record self.old.counts { port = Some port; dials = raised self.old.counts.dials } })) }
        ensures err { OnErr result (self.new ≡ record self.old {
          counts = record self.old.counts {
            faults = raised self.old.counts.faults;
            port = Some port;
            dials = raised self.old.counts.dials;
            failed = raised self.old.counts.failed;
          };
        }) }
        ensures failed { IsErr result ↔ ((is_failing self.old.fails self.old.counts.dials ≡ true) ⊎ (self.old.scripts ≡ [])) }
    {
        let failing = is_failing(&self.fails, self.dials);
        self.dials = self.dials.saturating_add(1);
        self.port = Some(port);
        if failing || self.scripts.is_empty() {
            self.failed = self.failed.saturating_add(1);
            self.count_fault();
            return Err(Failed);
        }
        Ok(MemLine::new(self.alloc, self.scripts.remove(0)))
    }

    fn back(&mut self, line: MemLine) -> Result<(), Memory>
        ensures ok { OnOk result (self.new ≡ record self.old {
          counts = record self.old.counts {
            faults = if nat_lt 0 line.faults then raised self.old.counts.faults else self.old.counts.faults;
            backs = raised self.old.counts.backs;
          };
          returned = self.old.returned ++ line ∷ [];
        }) }
        ensures err { OnErr result (self.new ≡ record self.old {
          counts = record self.old.counts {
            faults = if nat_lt 0 line.faults then raised self.old.counts.faults else self.old.counts.faults;
            backs = raised self.old.counts.backs;
          };
        }) }
    {
        self.backs = self.backs.saturating_add(1);
        if line.faults() > 0 {
            self.count_fault();
        }
        self.returned.push(line)?;
        Ok(())
    }
}
