ghost use Rattle.std.specs.Prelude.{◌≡◌, ◌≢◌, ◌↔◌, ◌≤◌, ◌++◌, None, Err, length, IfOk, IfErr, IfSome};
ghost use Rattle.std.specs.IoError.{error_kind};
ghost use Rattle.desk_files.specs.Outside.{counted};
ghost use Rattle.desk_files.specs.Answers.{read_ending, write_ending};
ghost use Rattle.desk_files.specs.Limits.{file_limit};
ghost use Rattle.desk_files.specs.Inside.{part_suffix};

use crate::fault::{FileErr, WriteErr};
use crate::files::{FILE_LIMIT, Files};
use arrayvec::ArrayString;
use desk_values::{Bytes, Txt};
use std::alloc::Global;
use std::fs::OpenFile;
use std::io::{ErrorKind, Read, Write};
use std::marker::Model;
use std::path::Path;
use std::{fs, io, rt};

/// What the name ends with under which a file is written before it is renamed.
pub const SUFFIX: &str = ".desk-part";

/// Room for the longest name and the suffix.
const NAME_ROOM: usize = 1024;

/// The files of the system, which it does not tell. A relative name starts at the folder where the
/// program runs. Contracts see the count of faults.
#[derive(Drop)]
pub struct RealFiles<'a, R> {
    system: &'a R,
    alloc: Global,
    faults: u64,
}

impl<'a, R> Model for RealFiles<'a, R> {
    ghost use Rattle.std.specs.Prelude.{ℕ};

    ghost Value = { ℕ };

    ghost view = { λ a. a.faults };
}

impl<'a, R: rt::Files> RealFiles<'a, R> {
    /// The files that `system` reaches, with no fault so far.
    pub fn new(system: &'a R, alloc: Global) -> Self
        ensures { result ≡ 0 }
    {
        RealFiles {
            system,
            alloc,
            faults: 0,
        }
    }
}

impl<R> RealFiles<'_, R> {
    // What an error of the system means to a reader. All but want of a file and of memory are faults.
    fn read_fault(&mut self, error: &io::Error) -> FileErr
        ensures missing { (result ≡ FileErr.Missing) ↔ (error_kind error.now ≡ ErrorKind.NotFound) }
        ensures memory { (result ≡ FileErr.Memory) ↔ (error_kind error.now ≡ ErrorKind.OutOfMemory) }
        ensures short { result ≢ FileErr.TooLong }
        ensures count { self.new ≡ counted (read_ending (Err result)) self.old }
    {
        match error.kind() {
            ErrorKind::NotFound => FileErr::Missing,
            ErrorKind::OutOfMemory => FileErr::Memory,
            _ => {
                self.faults = self.faults.saturating_add(1);
                FileErr::Failed
            }
        }
    }
}

impl<R: rt::Files> Files for RealFiles<'_, R> {
    ghost account = { λ count. record { content = None; faults = count } };

    fn read(&mut self, name: &Txt) -> Result<Bytes, FileErr>
        ensures limit { IfOk result (λ bytes. length bytes ≤ file_limit) }
        ensures count { self.new ≡ counted (read_ending result) self.old }
    {
        match read_file(self.system, self.alloc, name.as_str()) {
            Ok(Some(bytes)) => Ok(bytes),
            Ok(None) => Err(FileErr::TooLong),
            Err(error) => Err(self.read_fault(&error)),
        }
    }

    /// Makes the folders above the file where they are missing, writes the bytes beside it under its
    /// name with [`SUFFIX`] at the end, and renames. So a file that stood there stands until the whole
    /// new one does, whatever fails in between. It never answers `Memory`.
    fn write(&mut self, name: &Txt, bytes: &[u8]) -> Result<(), WriteErr>
        ensures err { IfErr result (λ error. error ≡ WriteErr.Failed) }
        ensures count { self.new ≡ counted (write_ending result) self.old }
    {
        if write_file(self.system, name, bytes).is_err() {
            self.faults = self.faults.saturating_add(1);
            return Err(WriteErr::Failed);
        }
        Ok(())
    }
}

// The bytes of a file, or `None` where it is too long. Past the limit at most one byte is read.
fn read_file<R: rt::Files>(system: &R, alloc: Global, name: &str) -> io::Result<Option<Bytes>>
    ensures { IfOk result (λ read. IfSome read (λ bytes. length bytes ≤ file_limit)) }
{
    let file = fs::open(system, name)?;
    let length = file.metadata()?.len();
    if length > FILE_LIMIT as u64 {
        return Ok(None);
    }
    // With room for one byte more, the read that finds the end takes no further memory.
    let mut bytes = Vec::with_capacity(alloc, length as usize + 1)?;
    file.take(FILE_LIMIT as u64 + 1).read_to_end(&mut bytes)?;
    if bytes.len() > FILE_LIMIT {
        return Ok(None);
    }
    Ok(Some(Bytes::from_vec(bytes)))
}

fn write_file(system: &impl rt::Files, name: &Txt, bytes: &[u8]) -> io::Result<()> {
    if let Some(folder) = Path::new(name.as_str()).parent() {
        fs::create_dir_all(system, folder)?;
    }
    let beside = name_beside(name);
    let file = fs::create(system, beside.as_str())?;
    let mut written = write_synced(file, bytes);
    if written.is_ok() {
        written = fs::rename(system, beside.as_str(), name.as_str());
    }
    if written.is_err() {
        // Where this fails too, the next write of the file begins with what is left.
        let _ = fs::remove_file(system, beside.as_str());
    }
    written
}

// The file is whole on the disk when this succeeds.
fn write_synced<W: Write + OpenFile + Drop>(mut file: W, bytes: &[u8]) -> io::Result<()> {
    file.write_all(bytes)?;
    file.sync_all()
}

// The name and the suffix.
fn name_beside(name: &Txt) -> ArrayString<NAME_ROOM>
    ensures { result.bytes ≡ name.now ++ part_suffix }
{
    let mut beside = ArrayString::new();
    beside.push_str(name.as_str());
    beside.push_str(SUFFIX);
    beside
}
