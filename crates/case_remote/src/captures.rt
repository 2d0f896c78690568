//! Captures in memory, and runs over them.

use case_text::txt;
use desk_files::{MemConns, MemDoor, MemFiles, MemHost, MemSink};
use desk_values::{List, ReadErr, Stamps, Txt};
use remote_link::Dial;
use replay_cli::replay_main;
use run_register::{KeptList, MemKeeper};
use std::alloc::Global;
use std::sync::Wait;
use std::thread::Threads;
use std::time::Clock;

/// Room for the line of a run.
const LINE_ROOM: u32 = 1000;

/// The files that a replay may write. Of one against another server it is four.
const WRITTEN: [&str; 7] = [
    "out/journal.txt",
    "out/report.txt",
    "out/report.csv",
    "out/tables.txt",
    "out/maps.csv",
    "out/fence.txt",
    "out/causes.csv",
];

/// A file by its name.
pub type Named = (&'static str, &'static str);

/// One session that inserts a row and commits it.
pub const ONE: [Named; 2] = [
    (
        "cap/start.cap",
        "start 1
level 1
seq s 10
svc main rw
svc report ro
table acct
col id int -1000000 1000000 notnull
col bal int -1000000 1000000 null
row 1 0 [i1,i100]
row 2 0 [i2,i50]
nextrow 3
sessions 1
end
",
    ),
    (
        "cap/session-000.cap",
        "session 1 0
0 0 0 0 - connect tmain > connected [] -
1 0 0 0 - sql tINSERT%20INTO%20acct%20VALUES%20%283%2C7%29 [] > count 1 [] r3
2 0 0 0 1 sql tCOMMIT [] > committed 3:0:[i3,i7] [] -
end
",
    ),
];

/// The start of captures whose rows have drawn numbers.
const ITEMS: &str = "start 1
level 1
seq s 10
svc main rw
svc report ro
svc test rw
table acct
col id int -1000000 1000000 notnull
col bal int -1000000 1000000 null
table item
col no seq s notnull
col qty int 0 1000 null
row 1 0 [i1,i100]
row 2 0 [i2,i50]
nextrow 3
sessions 2
end
";

/// Two sessions that draw numbers, of which one asks for its row.
pub const DRAWS: [Named; 3] = [
    ("cap/start.cap", ITEMS),
    (
        "cap/session-000.cap",
        "session 1 0
0 0 0 0 - connect tmain > connected [] -
2 0 0 0 - sql tINSERT%20INTO%20item%20VALUES%20%28s.NEXTVAL%2C%205%29 [] > count 1 [d0.10] r3
4 0 0 0 - sql tSELECT%20qty%20FROM%20item%20WHERE%20no%20%3D%20%3A1 [d0.10] > rows [i5] [] -
end
",
    ),
    (
        "cap/session-001.cap",
        "session 1 1
1 0 0 0 - connect tmain > connected [] -
3 0 0 0 - sql tINSERT%20INTO%20item%20VALUES%20%28s.NEXTVAL%2C%206%29 [] > count 1 [d0.11] r4
end
",
    ),
];

/// Two sessions, of which the first asks for a number that the second draws.
pub const STRANGER: [Named; 3] = [
    ("cap/start.cap", ITEMS),
    (
        "cap/session-000.cap",
        "session 1 0
0 0 0 0 - connect tmain > connected [] -
4 0 0 1 - sql tSELECT%20no%20FROM%20item%20WHERE%20no%20%3D%20%3A1 [d0.10] > rows [d0.10] [] -
end
",
    ),
    (
        "cap/session-001.cap",
        "session 1 1
1 0 0 0 - connect tmain > connected [] -
2 0 0 0 - sql tINSERT%20INTO%20item%20VALUES%20%28s.NEXTVAL%2C%205%29 [] > count 1 [d0.10] r3
3 0 0 0 1 sql tCOMMIT [] > committed 3:1:[d0.10,i5] [] -
end
",
    ),
];

/// These files, of which no call fails.
pub fn files_of(alloc: Global, named: &[Named]) -> Result<MemFiles, ReadErr> {
    failing_files_of(alloc, named, Stamps::new(alloc))
}

/// These files, of which the calls with these numbers fail.
pub fn failing_files_of(
    alloc: Global,
    named: &[Named],
    fails: Stamps,
) -> Result<MemFiles, ReadErr> {
    let mut files = MemFiles::new(alloc, fails);
    for (name, text) in named {
        files.put(&txt(alloc, name)?, text.as_bytes())?;
    }
    Ok(files)
}

/// The status and the line of a command, over lines of this dial.
pub fn ran<R: Clock + Wait + Threads + Sync, L: Dial>(
    rt: &R,
    alloc: Global,
    words: &str,
    files: &mut MemFiles,
    dial: &mut L,
) -> Result<String, anyhow::Error> {
    let words = words_of(alloc, words)?;
    let mut host = MemHost::new(alloc, MemConns::new(alloc), Stamps::new(alloc))?;
    let mut out = MemSink::new(alloc, LINE_ROOM, Stamps::new(alloc))?;
    let mut keeper = MemKeeper::new(alloc, KeptList::new(alloc), Stamps::new(alloc));
    let door = MemDoor::new(alloc);
    let status = replay_main(
        rt,
        alloc,
        words.as_slice(),
        files,
        &mut host,
        &door,
        &mut keeper,
        dial,
        &mut out,
    );
    let line = str::from_utf8(out.held().as_slice())?.trim_end();
    Ok(format!(in alloc; "{status} {line}")?)
}

/// The files that a replay wrote.
pub fn shown(alloc: Global, files: &MemFiles) -> Result<String, anyhow::Error> {
    let mut text = String::new(alloc);
    for name in WRITTEN {
        if let Some(bytes) = files.held(&txt(alloc, name)?) {
            text.push_str(name)?;
            text.push_str("\n")?;
            text.push_str(str::from_utf8(bytes.as_slice())?)?;
        }
    }
    if text.is_empty() {
        text.push_str("no file")?;
    }
    Ok(text)
}

/// How many files a replay wrote.
pub fn count_of(alloc: Global, files: &MemFiles) -> Result<u32, anyhow::Error> {
    let mut count: u32 = 0;
    for name in WRITTEN {
        if files.held(&txt(alloc, name)?).is_some() {
            count = count.saturating_add(1);
        }
    }
    Ok(count)
}

// The words of a command.
fn words_of(alloc: Global, words: &str) -> Result<List<Txt>, ReadErr> {
    let mut list = List::new(alloc);
    for word in words.split(' ') {
        list.push(txt(alloc, word)?)?;
    }
    Ok(list)
}
