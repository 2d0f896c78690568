//! The one call that the program makes.

ghost use Rattle.std.specs.Prelude.{◌≢◌, ◌≤◌, Err};
ghost use Rattle.replay_cli.specs.declared.failure.Failure.TheVariants.{DeviceFault, OutOfMemory};
ghost use Rattle.replay_cli.specs.Lines.{failure_line};
ghost use Rattle.replay_cli.specs.Ending.{Prints, Reports};
ghost use Rattle.replay_cli.specs.Outside.{AsksFew, EndsAsEach, EndsAsSome, HasCauses, TellsLine, outside};

use crate::failure::Failure;
use crate::plan::Plan;
use crate::running::run;
use desk_files::{Door, Files, Host, Sink};
use desk_values::{Memory, Txt};
use remote_link::Dial;
use run_register::Keeper;
use std::alloc::Global;
use std::sync::Wait;
use std::thread::Threads;
use std::time::Clock;

/// Does what the words after the program's name say, prints one line on `out`, or the lines of what is shown or of the register of
/// runs, and gives the status to end with.
///
/// | words | what they do | line |
/// |---|---|---|
/// | `run CAPTURE OUT` | replay the capture in the folder CAPTURE, and write `journal.txt`, `report.txt`, `report.csv`, `tables.txt`, `maps.csv` and `causes.csv` into OUT; with `--mode fence` on the captured start, before the last one, `fence.txt` too | `replayed N calls, D divergent` |
/// | `prepare CAPTURE OUT` | test the capture, and write into OUT as `requires.csv` which calls wait for which | `prepared N calls` |
/// | `serve CAPTURE START N` | serve N connections, each a session of the start in the file START, and write what they say as a capture into the folder CAPTURE | `served C connections, N calls`, and with `, M short of memory` behind it where there were such connections |
/// | `page CAPTURE OUT` | write a replay of the capture in CAPTURE, by what `run` wrote into OUT, as one page into OUT: `page.html` | `paged N calls, D divergent` |
/// | `show CAPTURE OUT` | print the calls of such a replay that differ | for each, by stamp, `STAMP SESSION.PLACE CLASS CAUSE TEXT` |
/// | `show CAPTURE OUT STAMP` | print one call of it | what it asked, was answered and waited for, and its transaction, each in lines of its own |
/// | `generate N OUT` | write a capture of N calls into OUT | `generated N calls` |
/// | `trial N` | make that capture and replay it without pauses | `trial N: N calls, 0 divergent, K commits` |
/// | `register OUT RUN` | keep `report.txt` of OUT under the name RUN | `registered RUN: N calls, D divergent` |
/// | `runs` | list the runs that are kept | `runs R`, and behind it `RUN N D` for each, by name |
/// | `accept RUN STAMP CLASS` | accept, in comparisons with RUN, a divergence of that call of that class | `accepted RUN STAMP CLASS` |
/// | `compare A B` | compare the run B with the run A, less what is accepted of A | `compare A B`, behind it `new STAMP SESSION PLACE CLASS`, `gone STAMP SESSION PLACE CLASS` and `changed STAMP SESSION PLACE CLASSA CLASSB`, by stamp, and `end` |
///
/// Anywhere behind `run` there may stand `--mode off`, `scn`, `object`, `order` or `fence`, `--think P`, `--connect P`, `--remap FILE`,
/// `--change FILE`, `--lanes N` and `--target PORT`, and behind `serve` `--port P`, each at most once. Which words are a command, `desk_words` says.
///
/// With `--target PORT` the calls are sent to the server at that port of this machine, each session's by a line of its own, and the files
/// are `journal.txt`, `report.txt`, `report.csv` and `maps.csv`: what tables the server has is not known.
///
/// | status | where | line |
/// |---|---|---|
/// | 0 | the work is done, no call differs, and nothing is new or changed | the command's own |
/// | 1 | `run` found calls that differ, `compare` something new or changed | its own |
/// | 2 | the words are no command | `bad command` |
/// | 3 | a file of the capture, or START, has a bad line | `bad capture: NAME line L` |
/// | 3 | the capture is not legal | `bad capture: ` and what is wrong |
/// | 4 | there is no such file | `missing: NAME` |
/// | 5 | `files`, `host`, `keeper` or `out` failed | `device fault` |
/// | 6 | want of memory, where nothing failed but a line to the server | `out of memory` |
/// | 7 | the remap file's record N is bad, or repeats a service | `bad remap: row N` |
/// | 7 | the change file's record N is bad, or the start that it leads to breaks a rule | `bad change: row N` |
/// | 8 | a file is too long, or all of the capture are together | `too long: NAME` |
/// | 9 | `serve` compared what was recorded with what the connections were answered, and something differs | `mismatch: ` and what differs |
/// | 9 | `run --target` compared what the desk kept with what the lines heard, and something differs | `mismatch: ` and what differs |
/// | 10 | a line to the server failed, or could not be had | `link fault` |
/// | 11 | there is no run of that name | `no such run: RUN` |
/// | 12 | another report is kept under that name | `other run: RUN` |
/// | 13 | `report.txt`, or what is kept of a run, is no report | `bad report: NAME line L` |
/// | 14 | the run, or the capture, has no call of that stamp | `no such call: stamp K` |
/// | 15 | the two runs have different numbers of calls | `other capture: A N, B M` |
/// | 16 | `journal.txt` of OUT has a bad line | `bad journal: NAME line L` |
/// | 16 | `fence.txt` of OUT has a bad line | `bad plain reads: NAME line L` |
/// | 17 | what is in OUT is not of a replay of that capture | `other replay: ` and what does not fit |
///
/// What the words and the files come to is their verdict, of which there is at most one: `ends` says that the call ends as some
/// verdict does, or outside of it by 5 or 6, and `each` that it ends so with whatever verdict there is. What a command has of the host and of
/// the dial it gives back, and the keeper that it asked is closed before anything is printed, also where the files are not told (`line`).
pub fn replay_main<
    R: Clock + Wait + Threads + Sync,
    F: Files,
    H: Host,
    D: Door,
    K: Keeper,
    L: Dial,
    S: Sink,
>(
    rt: &R,
    alloc: Global,
    words: &[Txt],
    files: &mut F,
    host: &mut H,
    door: &D,
    keeper: &mut K,
    dial: &mut L,
    out: &mut S,
) -> u8
    ensures ends { EndsAsSome words.now
        (outside (F.account files.old) (H.account host.old) (K.account keeper.old) (L.account dial.old) (S.account out.old))
        (outside (F.account files.new) (H.account host.new) (K.account keeper.new) (L.account dial.new) (S.account out.new)) result }
    ensures each { EndsAsEach words.now
        (outside (F.account files.old) (H.account host.old) (K.account keeper.old) (L.account dial.old) (S.account out.old))
        (outside (F.account files.new) (H.account host.new) (K.account keeper.new) (L.account dial.new) (S.account out.new)) result }
    ensures line { TellsLine words.now
        (outside (F.account files.old) (H.account host.old) (K.account keeper.old) (L.account dial.old) (S.account out.old))
        (outside (F.account files.new) (H.account host.new) (K.account keeper.new) (L.account dial.new) (S.account out.new)) result }
    ensures asks { AsksFew words.now
        (outside (F.account files.old) (H.account host.old) (K.account keeper.old) (L.account dial.old) (S.account out.old))
        (outside (F.account files.new) (H.account host.new) (K.account keeper.new) (L.account dial.new) (S.account out.new)) }
    ensures causes { HasCauses words.now
        (outside (F.account files.old) (H.account host.old) (K.account keeper.old) (L.account dial.old) (S.account out.old))
        (outside (F.account files.new) (H.account host.new) (K.account keeper.new) (L.account dial.new) (S.account out.new)) result }
{
    let done = run(rt, alloc, words, files, host, door, keeper, dial);
    report(alloc, &done, out)
}

/// Appends the line of what the work came to, and gives the status.
fn report<S: Sink>(alloc: Global, done: &Result<Plan, Failure>, out: &mut S) -> u8
    ensures says { Reports done.now result (S.account out.old).content (S.account out.new).content (S.account out.old).faults (S.account out.new).faults }
    ensures count { (S.account out.old).faults ≤ (S.account out.new).faults }
{
    match done {
        Ok(plan) => print(plan.line.as_slice(), plan.status(), out),
        Err(failure) => report_failure(alloc, failure, out),
    }
}

fn report_failure<S: Sink>(alloc: Global, failure: &Failure, out: &mut S) -> u8
    ensures says { Reports (Err failure.now) result (S.account out.old).content (S.account out.new).content (S.account out.old).faults (S.account out.new).faults }
    ensures count { (S.account out.old).faults ≤ (S.account out.new).faults }
{
    match failure {
        Failure::DeviceFault => report_fault(out),
        Failure::BadCommand => report_refusal(alloc, failure, out),
        Failure::Refused(_) => report_refusal(alloc, failure, out),
        Failure::Differs(_) => report_refusal(alloc, failure, out),
        Failure::NotDone(_) => report_refusal(alloc, failure, out),
        Failure::NotSent(_) => report_refusal(alloc, failure, out),
        Failure::OutOfMemory => report_want_of_memory(out),
    }
}

/// Makes the line of a failure and prints it.
fn report_refusal<S: Sink>(alloc: Global, failure: &Failure, out: &mut S) -> u8
    requires { failure.now ≢ DeviceFault }
    ensures says { Reports (Err failure.now) result (S.account out.old).content (S.account out.new).content (S.account out.old).faults (S.account out.new).faults }
    ensures count { (S.account out.old).faults ≤ (S.account out.new).faults }
{
    match failure.line(alloc) {
        Ok(line) => print(line.as_slice(), failure.status(), out),
        Err(Memory) => report_want_of_memory(out),
    }
}

/// Appends that a device failed, and gives the status to end with. It takes no memory, so that a fault is never told as
/// want of it.
fn report_fault<S: Sink>(out: &mut S) -> u8
    ensures says { Prints (failure_line DeviceFault) 5 result
        (S.account out.old).content (S.account out.new).content (S.account out.old).faults (S.account out.new).faults }
    ensures count { (S.account out.old).faults ≤ (S.account out.new).faults }
{
    print(b"device fault\n", Failure::DeviceFault.status(), out)
}

/// Appends that memory was short, and gives the status to end with: 6, or 5 where the line was not printed. It takes no
/// memory.
pub fn report_want_of_memory<S: Sink>(out: &mut S) -> u8
    ensures says { Prints (failure_line OutOfMemory) 6 result
        (S.account out.old).content (S.account out.new).content (S.account out.old).faults (S.account out.new).faults }
    ensures count { (S.account out.old).faults ≤ (S.account out.new).faults }
{
    print(b"out of memory\n", Failure::OutOfMemory.status(), out)
}

/// Appends a line. The status is this one, or that of a fault where the line was not printed, or in part.
fn print<S: Sink>(line: &[u8], status: u8, out: &mut S) -> u8
    ensures says { Prints line.now status result
        (S.account out.old).content (S.account out.new).content (S.account out.old).faults (S.account out.new).faults }
    ensures count { (S.account out.old).faults ≤ (S.account out.new).faults }
{
    match out.write(line) {
        Ok(()) => status,
        Err(_) => Failure::DeviceFault.status(),
    }
}
