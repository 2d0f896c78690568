//! The program. Enters: the words that it was called with. Leaves: the status that it ends with. It touches the real
//! files, the register of runs beside them, the network of this machine, the standard output and the clock, which it hands to the one call of the desk, and where the standard error is
//! a terminal it tells there of the progress.
#![tactic(auto)]

mod connections;
mod progress;

use connections::TellingHost;
use desk_files::{RealFiles, RealHost, SleepDoor, StdSink};
use progress::{CountingFiles, ProgressDoor};
use remote_link::RealDial;
use replay_cli::{Arguments, arguments_of, replay_main, report_want_of_memory};
use sqlite_keeper::{REGISTER_FILE, RegisterFile};
use std::io::IsTerminal;
use std::process::ExitCode;
use std::sync::atomic::AtomicU64;

fn main(rt: HostRuntime) -> ExitCode {
    let alloc = rt.alloc();
    let mut out = StdSink::new(&rt);
    let called = Arguments { environment: &rt };
    let Ok(words) = arguments_of(alloc, &called) else {
        return ExitCode::from(report_want_of_memory(&mut out));
    };
    let calls = AtomicU64::new(0);
    let mut files = CountingFiles::new(RealFiles::new(&rt, alloc), &calls);
    let door = SleepDoor::new(&rt);
    let on_terminal = rt.stderr().is_terminal();
    let told = ProgressDoor::new(&door, &rt, &calls, on_terminal);
    let mut host = TellingHost::new(RealHost::new(&rt), &rt, on_terminal);
    let mut keeper = RegisterFile::new(&rt, alloc, REGISTER_FILE);
    let mut dial = RealDial::new(&rt, alloc);
    let status = replay_main(
        &rt,
        alloc,
        words.as_slice(),
        &mut files,
        &mut host,
        &told,
        &mut keeper,
        &mut dial,
        &mut out,
    );
    told.end(&rt);
    ExitCode::from(status)
}
