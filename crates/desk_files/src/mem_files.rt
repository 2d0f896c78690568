ghost use Rattle.std.specs.Prelude.{◌≡◌, ◌↔◌, OnOk, OnErr, IfOk, IsErrOf, IsTrue, Some, length, ◌≤◌};
ghost use Rattle.std.specs.Option.{option_copied};
ghost use Rattle.std.specs.FinMap as map;
ghost use Rattle.desk_files.specs.Outside.{is_failed};
ghost use Rattle.desk_files.specs.Answers.{ReadSays, read_ending, write_ending};
ghost use Rattle.desk_files.specs.Memory.{no_calls, fails_now, after_call};
ghost use Rattle.desk_files.specs.Limits.{file_limit};

use crate::calls::Calls;
use crate::fault::{FileErr, WriteErr};
use crate::files::{FILE_LIMIT, Files};
use desk_values::{Bytes, Memory, Stamps, Txt};
use std::alloc::Global;
use std::collections::BTreeMap;
use std::marker::Model;

/// Files in memory, which tells them. Its calls of [`Files`] are numbered together from 0, and those
/// whose numbers were given to [`MemFiles::new`] fail and change nothing but the count of faults.
#[derive(Drop)]
pub struct MemFiles {
    alloc: Global,
    files: BTreeMap<String, Bytes>,
    calls: Calls,
}

impl Model for MemFiles {
    ghost use Rattle.desk_files.specs.Memory.{MemoryFiles, memory_files_code};
    ghost use Rattle.desk_files.specs.Stored.{files_of};

    ghost Value = { MemoryFiles };

    ghost coded = { memory_files_code };

    ghost view = { λ a. record { files = files_of a.files; calls = a.calls } };
}

impl MemFiles {
    /// No files. The calls with the numbers `fails` are to fail.
    pub fn new(alloc: Global, fails: Stamps) -> MemFiles
        ensures { result ≡ record { files = map.empty; calls = no_calls fails } }
    {
        MemFiles {
            alloc,
            files: BTreeMap::new(alloc),
            calls: Calls::new(fails),
        }
    }

    /// Sets the bytes of a file. This is no call of the device: it has no number, and no fault.
    pub fn put(&mut self, name: &Txt, bytes: &[u8]) -> Result<(), Memory>
        ensures ok { OnOk result (self.new ≡ record self.old {
          files = map.insert self.old.files name.now bytes.now;
        }) }
        ensures err { OnErr result (self.new ≡ self.old) }
    {
        let name = String::from_str(self.alloc, name.as_str())?;
        let bytes = copy_of(self.alloc, bytes)?;
        self.files.insert(name, bytes)?;
        Ok(())
    }

    /// The bytes of a file; `None` exactly where there is none of that name.
    pub fn held(&self, name: &Txt) -> Option<&Bytes>
        ensures { option_copied result ≡ map.get self.now.files name.now }
    {
        self.files.get(name.as_str())
    }
}

impl Files for MemFiles {
    ghost account = { λ s. record { content = Some s.files; faults = s.calls.faults } };

    fn read(&mut self, name: &Txt) -> Result<Bytes, FileErr>
        ensures failed { IsErrOf result FileErr.Failed ↔ IsTrue (fails_now self.old.calls) }
        ensures says { ReadSays (map.get self.old.files name.now) result }
        ensures limit { IfOk result (λ bytes. length bytes ≤ file_limit) }
        ensures files { self.new.files ≡ self.old.files }
        ensures calls { self.new.calls ≡ after_call self.old.calls (is_failed (read_ending result)) }
    {
        if self.calls.fails_now() {
            self.calls.count(true);
            return Err(FileErr::Failed);
        }
        self.calls.count(false);
        let Some(bytes) = self.held(name) else {
            return Err(FileErr::Missing);
        };
        if bytes.len() > FILE_LIMIT {
            return Err(FileErr::TooLong);
        }
        Ok(copy_of(self.alloc, bytes.as_slice())?)
    }

    fn write(&mut self, name: &Txt, bytes: &[u8]) -> Result<(), WriteErr>
        ensures failed { IsErrOf result WriteErr.Failed ↔ IsTrue (fails_now self.old.calls) }
        ensures ok { OnOk result (self.new.files ≡ map.insert self.old.files name.now bytes.now) }
        ensures err { OnErr result (self.new.files ≡ self.old.files) }
        ensures calls { self.new.calls ≡ after_call self.old.calls (is_failed (write_ending result)) }
    {
        if self.calls.fails_now() {
            self.calls.count(true);
            return Err(WriteErr::Failed);
        }
        self.calls.count(false);
        self.put(name, bytes)?;
        Ok(())
    }
}

// The bytes, in memory of their own.
fn copy_of(alloc: Global, bytes: &[u8]) -> Result<Bytes, Memory>
    ensures { IfOk result (λ copy. copy ≡ bytes.now) }
{
    Ok(Bytes::from_vec(Vec::from_slice(alloc, bytes)?))
}
