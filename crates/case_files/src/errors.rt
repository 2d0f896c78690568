//! What errors say.

use desk_files::{Failed, FileErr, WriteErr};
use desk_schema::DraftErr;
use desk_values::{BindErr, Memory, ReadErr, TxtErr};
use std::alloc::Global;

// What each error of values says, or of starts and files. The last is one that has become a program's own.
pub fn answer(alloc: Global, word: &str) -> Result<String, ReadErr> {
    match word {
        "values" => Ok(format!(in alloc;
            "{}; {}; {}; {}; {}; {}; {}; {}",
            Memory,
            TxtErr::TooLong,
            TxtErr::NotUtf8,
            TxtErr::Memory,
            BindErr::Full,
            BindErr::Memory,
            ReadErr::Bad,
            ReadErr::Memory
        )?),
        _ => Ok(format!(in alloc;
            "{}; {}; {}; {}; {}; {}; {}; {}; {}",
            DraftErr::Rule,
            DraftErr::Memory,
            FileErr::Missing,
            FileErr::TooLong,
            FileErr::Failed,
            FileErr::Memory,
            WriteErr::Failed,
            WriteErr::Memory,
            anyhow::Error::from(Failed)
        )?),
    }
}
