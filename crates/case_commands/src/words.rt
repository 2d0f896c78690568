//! The words that a program is called with.

use case_text::unescaped;
use desk_values::{Bytes, List, Memory, Txt};
use replay_cli::{Arguments, arguments_of, word_of};
use std::alloc::Global;
use std::env::{Env, FillError};

/// A program that was called with these words, its name the first.
#[derive(Drop)]
struct Called {
    words: List<Bytes>,
}

impl Env for Called {
    fn arg(&self, i: usize, buf: &mut [u8]) -> Result<usize, FillError> {
        let Some(word) = self.words.get(i) else {
            return Err(FillError::NotPresent);
        };
        if word.len() > buf.len() {
            return Err(FillError::TooLong);
        }
        buf[..word.len()].copy_from_slice(word.as_slice());
        Ok(word.len())
    }

    fn var(&self, _name: &str, _buf: &mut [u8]) -> Result<usize, FillError> {
        Err(FillError::NotPresent)
    }

    fn var_at(&self, _i: usize, _buf: &mut [u8]) -> Result<usize, FillError> {
        Err(FillError::NotPresent)
    }
}

/// The words after the first, as a program is told them, each in brackets.
pub fn append_arguments(alloc: Global, text: &str, to: &mut Bytes) -> Result<(), Memory> {
    let called = Called {
        words: bytes_of_words(alloc, text)?,
    };
    let arguments = Arguments {
        environment: &called,
    };
    for word in arguments_of(alloc, &arguments)?.as_slice() {
        append_in_brackets(word, to)?;
    }
    Ok(())
}

/// The word that the bytes are, in brackets.
pub fn append_word(alloc: Global, text: &str, to: &mut Bytes) -> Result<(), Memory> {
    let bytes = unescaped(alloc, text)?;
    append_in_brackets(&word_of(alloc, bytes.as_slice())?, to)
}

fn append_in_brackets(word: &Txt, to: &mut Bytes) -> Result<(), Memory> {
    to.push(b'[')?;
    to.append(word.as_str().as_bytes())?;
    to.push(b']')
}

/// The words of a command, between spaces; none where there is no text.
pub fn words_of(alloc: Global, text: &str) -> Result<List<Txt>, Memory> {
    let mut words = List::new(alloc);
    for bytes in bytes_of_words(alloc, text)?.as_slice() {
        words.push(word_of(alloc, bytes.as_slice())?)?;
    }
    Ok(words)
}

fn bytes_of_words(alloc: Global, text: &str) -> Result<List<Bytes>, Memory> {
    let mut words = List::new(alloc);
    if text.is_empty() {
        return Ok(words);
    }
    for word in text.split(' ') {
        words.push(unescaped(alloc, word)?)?;
    }
    Ok(words)
}
