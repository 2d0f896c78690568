//! Captures in memory, and runs over them.

use desk_files::{Door, MemConn, MemConns, MemFiles, MemHost, MemSink};
use desk_values::{Bytes, List, Memory, ReadErr, Stamps, Txt};
use remote_link::{MemDial, MemScripts};
use replay_cli::replay_main;
use run_register::{KeptList, MemKeeper};
use std::alloc::Global;
use std::sync::Wait;
use std::thread::Threads;
use std::time::Clock;

/// Room for the line of a run.
const LINE_ROOM: u32 = 1000;

// The request of a client that connects, and no more.
const CONNECT: &[u8] = b"POST /call HTTP/1.1\r\nContent-Length: 18\r\n\r\n{\"connect\":\"main\"}";

/// A file by its name.
pub type Named = (&'static str, &'static str);

/// The start of a capture of two sessions.
pub const START: &str = "start 1
level 1
svc main rw
table acct
col id int 1 9 notnull
col bal int 0 1000 null
row 1 0 [i1,i100]
nextrow 2
sessions 2
end
";

/// Two sessions whose calls stand side by side.
pub const PAIRS: [Named; 3] = [
    ("cap/start.cap", START),
    (
        "cap/session-000.cap",
        "session 1 0
0 0 0 0 - connect tmain > connected [] -
2 0 0 0 - sql tSELECT%20bal%20FROM%20acct [] > rows [i100] [] -
4 0 0 0 - sql tCOMMIT [] > committed - [] -
end
",
    ),
    (
        "cap/session-001.cap",
        "session 1 1
1 0 0 0 - connect tmain > connected [] -
3 0 0 0 - sql tSELECT%20bal%20FROM%20acct [] > rows [i100] [] -
5 0 0 0 - sql tCOMMIT [] > committed - [] -
end
",
    ),
];

/// A session that begins at 500, and whose second call begins 1,000 behind the end of the first.
pub const PAUSED: [Named; 3] = [
    ("cap/start.cap", START),
    (
        "cap/session-000.cap",
        "session 1 0
0 500 600 0 - connect tmain > connected [] -
1 1600 1600 0 - sql tCOMMIT [] > committed - [] -
end
",
    ),
    (
        "cap/session-001.cap",
        "session 1 1
end
",
    ),
];

/// A text of at most 1,000 bytes.
pub fn txt(alloc: Global, text: &str) -> Result<Txt, ReadErr> {
    match Txt::from_bytes(alloc, text.as_bytes()) {
        Ok(text) => Ok(text),
        Err(_) => Err(ReadErr::Bad),
    }
}

/// These files, of which no call fails.
pub fn files_of(alloc: Global, named: &[Named]) -> Result<MemFiles, ReadErr> {
    let mut files = MemFiles::new(alloc, Stamps::new(alloc));
    for (name, text) in named {
        files.put(&txt(alloc, name)?, text.as_bytes())?;
    }
    Ok(files)
}

/// The status and the line of a command.
pub fn ran<R: Clock + Wait + Threads + Sync, D: Door>(
    rt: &R,
    alloc: Global,
    words: &str,
    files: &mut MemFiles,
    conns: MemConns,
    door: &D,
) -> Result<String, anyhow::Error> {
    let words = words_of(alloc, words)?;
    let mut out = MemSink::new(alloc, LINE_ROOM, Stamps::new(alloc))?;
    let mut host = MemHost::new(alloc, conns, Stamps::new(alloc))?;
    let mut keeper = MemKeeper::new(alloc, KeptList::new(alloc), Stamps::new(alloc));
    let mut dial = MemDial::new(alloc, MemScripts::new(alloc), Stamps::new(alloc));
    let status = replay_main(
        rt,
        alloc,
        words.as_slice(),
        files,
        &mut host,
        door,
        &mut keeper,
        &mut dial,
        &mut out,
    );
    let line = str::from_utf8(out.held().as_slice())?.trim_end();
    Ok(format!(in alloc; "{status} {line}")?)
}

/// So many connections, each of which connects.
pub fn guests(alloc: Global, count: u32) -> Result<MemConns, Memory> {
    let mut conns = MemConns::new(alloc);
    for _ in 0..count {
        conns.push(MemConn {
            input: Bytes::from_slice(alloc, CONNECT)?,
            room: LINE_ROOM,
            input_fails: Stamps::new(alloc),
            output_fails: Stamps::new(alloc),
        })?;
    }
    Ok(conns)
}

fn words_of(alloc: Global, words: &str) -> Result<List<Txt>, ReadErr> {
    let mut list = List::new(alloc);
    for word in words.split(' ') {
        list.push(txt(alloc, word)?)?;
    }
    Ok(list)
}
