//! The files that runs begin with.

use case_text::{first_word, txt, unescaped};
use desk_files::MemFiles;
use desk_values::{Bytes, List, Memory, ReadErr, Stamps};
use std::alloc::Global;
use std::collections::BTreeMap;

/// Files by name.
#[derive(Drop)]
pub struct Kept {
    files: BTreeMap<String, Bytes>,
}

impl Kept {
    /// No files.
    pub fn new(alloc: Global) -> Kept {
        Kept {
            files: BTreeMap::new(alloc),
        }
    }

    /// Does what a line says of a file: `file NAME TEXT` or `none NAME`.
    pub fn set(&mut self, alloc: Global, word: &str, rest: &str) -> Result<(), Memory> {
        let (name, text) = first_word(rest);
        match word {
            "file" => self.put(alloc, name, lines_of(alloc, text)?),
            _ => {
                self.files.remove(name);
                Ok(())
            }
        }
    }

    fn put(&mut self, alloc: Global, name: &str, bytes: Bytes) -> Result<(), Memory> {
        self.files.insert(String::from_str(alloc, name)?, bytes)?;
        Ok(())
    }

    /// The files in memory. The calls with these numbers fail.
    pub fn to_files(&self, alloc: Global, fails: Stamps) -> Result<MemFiles, ReadErr> {
        let mut files = MemFiles::new(alloc, fails);
        for (name, bytes) in &self.files {
            files.put(&txt(alloc, name.as_str())?, bytes.as_slice())?;
        }
        Ok(files)
    }

    /// Their names.
    pub fn names(&self, alloc: Global) -> Result<BTreeMap<String, ()>, Memory> {
        let mut names = BTreeMap::new(alloc);
        for (name, _) in &self.files {
            names.insert(String::from_str(alloc, name.as_str())?, ())?;
        }
        Ok(names)
    }

    /// Whether the file of this name has these bytes.
    pub fn holds(&self, name: &str, bytes: &[u8]) -> bool {
        match self.files.get(name) {
            Some(held) => held.as_slice() == bytes,
            None => false,
        }
    }
}

/// The lines between `/`, with the bytes that codes in them stand for.
pub fn lines_of(alloc: Global, text: &str) -> Result<Bytes, Memory> {
    let mut bytes = List::new(alloc);
    for (place, line) in text.split('/').enumerate() {
        if place > 0 {
            bytes.push(b'\n')?;
        }
        bytes.append(unescaped(alloc, line)?.as_slice())?;
    }
    Ok(bytes)
}
