//! What the program tells of its progress, on a terminal alone: how many calls of all are started, and the time gone.
//!
//! The door counts the calls that pass it, and the files count the lines of calls that are read through them.

ghost use Rattle.desk_files.specs.Outside.{Account, FileMap};

use desk_files::{Door, FileErr, Files, WriteErr};
use desk_values::{Bytes, Txt};
use std::sync::Wait;
use std::sync::atomic::{AtomicU64, Ordering};
use std::time::Clock;

/// The least time between two lines, in microseconds. The first comes after two of them.
const BETWEEN: u64 = 500_000;

/// The lines of a session file that tell no call.
const OTHER_LINES: usize = 2;

/// A door that says now and then on the standard error how far a run is. It holds a call as the door in it does.
#[derive(Drop)]
pub struct ProgressDoor<'a, D, E> {
    door: &'a D,
    shown: &'a E,
    // how many calls were read
    calls: &'a AtomicU64,
    started: AtomicU64,
    // when a line was shown last, and before that a time between two
    told: AtomicU64,
    on_terminal: bool,
}

impl<'a, D, E> ProgressDoor<'a, D, E> {
    /// A door that no call has passed, before a run of so many calls as are read until then. Without a terminal it shows nothing.
    pub fn new(door: &'a D, shown: &'a E, calls: &'a AtomicU64, on_terminal: bool) -> Self {
        ProgressDoor {
            door,
            shown,
            calls,
            started: AtomicU64::new(0),
            told: AtomicU64::new(BETWEEN),
            on_terminal,
        }
    }
}

impl<D: Door, E: Eprint> ProgressDoor<'_, D, E> {
    /// Shows the last line, where there was one.
    pub fn end<R: Clock + Wait>(&self, rt: &R) {
        if self.on_terminal && BETWEEN < self.told.load(Ordering::SeqCst) {
            let started = self.started.load(Ordering::SeqCst);
            show(self.shown, started, self.calls, self.door.now(rt));
            let _ = eprintln!(self.shown; "");
        }
    }
}

// Writes the line over the one before it. Of a made capture nothing is read, and it is not known how many calls there are.
fn show<E: Eprint>(shown: &E, started: u64, calls: &AtomicU64, now: u64) {
    let seconds = now / 1_000_000;
    let all = calls.load(Ordering::SeqCst);
    let _ = if all < started {
        eprint!(shown; "\r{started} calls started, {seconds} s")
    } else {
        eprint!(shown; "\r{started} of {all} calls started, {seconds} s")
    };
}

// Whether a line is due at this moment. It is then due to nobody else.
fn is_due(told: &AtomicU64, now: u64) -> bool {
    let last = told.load(Ordering::SeqCst);
    last.saturating_add(BETWEEN) <= now
        && told
            .compare_exchange(last, now, Ordering::SeqCst, Ordering::SeqCst)
            .is_ok()
}

impl<D: Door, E: Eprint + Sync> Door for ProgressDoor<'_, D, E> {
    fn pass<R: Clock + Wait>(&self, rt: &R, k: u32, micros: u64) {
        if self.on_terminal {
            let started = self
                .started
                .fetch_add(1, Ordering::SeqCst)
                .saturating_add(1);
            let now = self.door.now(rt);
            if is_due(&self.told, now) {
                show(self.shown, started, self.calls, now);
            }
        }
        self.door.pass(rt, k, micros);
    }

    fn now<R: Clock + Wait>(&self, rt: &R) -> u64 {
        self.door.now(rt)
    }
}

/// Files that count the calls which are read of them.
#[derive(Drop)]
pub struct CountingFiles<'a, F: Drop> {
    files: F,
    calls: &'a AtomicU64,
}

impl<'a, F: Drop> CountingFiles<'a, F> {
    /// These files, which add the calls that are read to this count.
    pub fn new(files: F, calls: &'a AtomicU64) -> Self {
        CountingFiles { files, calls }
    }
}

impl<F: Files + Drop> Files for CountingFiles<'_, F> {
    ghost account = { λ s. F.account s.files };

    fn read(&mut self, name: &Txt) -> Result<Bytes, FileErr> {
        let bytes = self.files.read(name)?;
        let calls = lines(bytes.as_slice()).saturating_sub(OTHER_LINES);
        if is_of_session(name.as_str()) {
            self.calls.fetch_add(calls as u64, Ordering::SeqCst);
        }
        Ok(bytes)
    }

    fn write(&mut self, name: &Txt, bytes: &[u8]) -> Result<(), WriteErr> {
        self.files.write(name, bytes)
    }
}

// Whether a path is that of a session's file. Its last part tells: a folder may have any name.
fn is_of_session(path: &str) -> bool {
    let name = match path.rsplit_once('/') {
        Some((_, name)) => name,
        None => path,
    };
    name.starts_with("session-") && name.ends_with(".cap")
}

fn lines(bytes: &[u8]) -> usize {
    let mut count = 0usize;
    for byte in bytes {
        if *byte == b'\n' {
            count = count.saturating_add(1);
        }
    }
    count
}
