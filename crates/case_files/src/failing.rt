//! The system's files, with a step of each write that fails.

use std::alloc::Allocator;
use std::fs::{Metadata, OpenFile, OpenOptions};
use std::io::{ErrorKind, Read, Seek, SeekFrom, Write};
use std::net::OpenStream;
use std::{io, rt};

/// The step of a write at which the system fails.
#[derive(Clone, Copy, PartialEq, Eq)]
pub enum Step {
    /// The disk is full after a few bytes.
    Write,
    /// The bytes are not brought to the disk.
    Sync,
    /// The file is not renamed.
    Rename,
}

/// The system's files, which fail at one step of each write.
#[derive(Drop)]
pub struct Failing<'a, R> {
    system: &'a R,
    step: Step,
}

impl<'a, R: rt::Files> Failing<'a, R> {
    pub fn new(system: &'a R, step: Step) -> Self {
        Failing { system, step }
    }
}

impl<R: rt::Files> rt::Files for Failing<'_, R> {
    type File = FailingFile<R::File>;

    type Dir = R::Dir;

    fn open_file(&self, how: &OpenOptions, path: &str) -> io::Result<FailingFile<R::File>> {
        Ok(FailingFile {
            file: self.system.open_file(how, path)?,
            step: self.step,
            room: 5,
        })
    }

    fn open_dir(&self, path: &str) -> io::Result<R::Dir> {
        self.system.open_dir(path)
    }

    fn metadata(&self, path: &str) -> io::Result<Metadata> {
        self.system.metadata(path)
    }

    fn symlink_metadata(&self, path: &str) -> io::Result<Metadata> {
        self.system.symlink_metadata(path)
    }

    fn copy(&self, from: &str, to: &str) -> io::Result<u64> {
        self.system.copy(from, to)
    }

    fn rename(&self, from: &str, to: &str) -> io::Result<()> {
        if self.step == Step::Rename {
            return Err(io::Error::from(ErrorKind::PermissionDenied));
        }
        self.system.rename(from, to)
    }

    fn remove_file(&self, path: &str) -> io::Result<()> {
        self.system.remove_file(path)
    }

    fn create_dir(&self, path: &str) -> io::Result<()> {
        self.system.create_dir(path)
    }

    fn remove_dir(&self, path: &str) -> io::Result<()> {
        self.system.remove_dir(path)
    }

    fn remove_dir_all<B: Allocator>(&self, alloc: B, path: &str) -> io::Result<()> {
        self.system.remove_dir_all(alloc, path)
    }
}

/// A file of the system that fails at one step.
#[derive(Drop)]
pub struct FailingFile<F> {
    file: F,
    step: Step,
    room: usize,
}

impl<F: Read> Read for FailingFile<F> {
    fn read(&mut self, buf: &mut [u8]) -> io::Result<usize> {
        self.file.read(buf)
    }
}

impl<F: Write> Write for FailingFile<F> {
    fn write(&mut self, buf: &[u8]) -> io::Result<usize> {
        if self.step != Step::Write {
            return self.file.write(buf);
        }
        if self.room == 0 {
            return Err(io::Error::from(ErrorKind::StorageFull));
        }
        let written = self.file.write(&buf[..buf.len().min(self.room)])?;
        self.room = self.room.saturating_sub(written);
        Ok(written)
    }

    fn flush(&mut self) -> io::Result<()> {
        self.file.flush()
    }
}

impl<F: Seek> Seek for FailingFile<F> {
    fn seek(&mut self, to: SeekFrom) -> io::Result<u64> {
        self.file.seek(to)
    }
}

impl<F: OpenFile> OpenFile for FailingFile<F> {
    fn metadata(&self) -> io::Result<Metadata> {
        self.file.metadata()
    }

    fn set_len(&self, size: u64) -> io::Result<()> {
        self.file.set_len(size)
    }

    fn sync_all(&self) -> io::Result<()> {
        if self.step == Step::Sync {
            return Err(io::Error::from(ErrorKind::Other));
        }
        self.file.sync_all()
    }

    fn sync_data(&self) -> io::Result<()> {
        self.file.sync_data()
    }
}

/// A stream whose first reads are interrupted, and which has room for so many bytes and then breaks.
#[derive(Drop)]
pub struct Uneven {
    interruptions: u32,
    room: usize,
}

impl Uneven {
    pub fn new(interruptions: u32, room: usize) -> Self {
        Uneven {
            interruptions,
            room,
        }
    }
}

impl Read for Uneven {
    fn read(&mut self, buf: &mut [u8]) -> io::Result<usize> {
        if 0 < self.interruptions {
            self.interruptions -= 1;
            return Err(io::Error::from(ErrorKind::Interrupted));
        }
        let mut from: &[u8] = b"read";
        from.read(buf)
    }
}

impl Write for Uneven {
    fn write(&mut self, buf: &[u8]) -> io::Result<usize> {
        if self.room == 0 {
            return Err(io::Error::from(ErrorKind::BrokenPipe));
        }
        let written = buf.len().min(self.room);
        self.room -= written;
        Ok(written)
    }

    fn flush(&mut self) -> io::Result<()> {
        Ok(())
    }
}

impl OpenStream for Uneven {}
