//! The files of a command, by their names.

ghost use Rattle.std.specs.Prelude.{◌≡◌, ◌≤◌, ◌<◌, ◌++◌, length, IfOk};
ghost use Rattle.replay_cli.specs.FileNames as file_name;

use desk_files::Write;
use desk_values::{Bytes, List, Memory, Txt, TxtErr};
use std::alloc::Global;

/// The name of a file in a folder.
pub fn name_in(alloc: Global, folder: &Txt, file: &str) -> Result<Txt, Memory>
    requires folder { length folder.now ≤ 900 }
    requires file { length file.now ≤ 100 }
    ensures { IfOk result (λ found. found ≡ folder.now ++ file.now) }
{
    let mut name: Bytes = List::new(alloc);
    name.append(folder.as_str().as_bytes())?;
    name.append(file.as_bytes())?;
    match Txt::from_bytes(alloc, name.as_slice()) {
        Ok(name) => Ok(name),
        Err(TxtErr::Memory) => Err(Memory),
        Err(TxtErr::TooLong) => unreachable!(),
        Err(TxtErr::NotUtf8) => unreachable!(),
    }
}

/// What is written of a file in a folder.
pub fn write_in(alloc: Global, folder: &Txt, file: &str, bytes: Bytes) -> Result<Write, Memory>
    requires folder { length folder.now ≤ 900 }
    requires file { length file.now ≤ 100 }
    ensures { IfOk result (λ write. write ≡ record { name = folder.now ++ file.now; bytes = bytes }) }
{
    let name = name_in(alloc, folder, file)?;
    Ok(Write { name, bytes })
}

/// The name of a session's file in a folder, with the session's number in three digits.
pub fn session_name(alloc: Global, folder: &Txt, session: u32) -> Result<Txt, Memory>
    requires folder { length folder.now ≤ 900 }
    requires session { session < 1000 }
    ensures { IfOk result (λ found. found ≡ file_name.session_name folder.now session) }
{
    let (hundreds, tens, ones) = (session / 100, session / 10 % 10, session % 10);
    let file = format!(in alloc; "/session-{hundreds}{tens}{ones}.cap")?;
    name_in(alloc, folder, file.as_str())
}

/// The names of the files of the first so many sessions.
pub fn session_names(alloc: Global, folder: &Txt, count: u32) -> Result<List<Txt>, Memory>
    requires folder { length folder.now ≤ 900 }
    requires count { count ≤ 1000 }
    ensures { IfOk result (λ names. names ≡ file_name.session_names folder.now count) }
{
    let mut names = List::new(alloc);
    for session in 0..count {
        names.push(session_name(alloc, folder, session)?)?;
    }
    Ok(names)
}
