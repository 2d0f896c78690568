//! The words that a program is called with.

ghost use Rattle.std.specs.Prelude.{◌≡◌, ◌<◌, ◌^◌, [], IfOk, ℕ, List as Sequence, Option, Some, None, slice_get, length, map, drop};
ghost use Rattle.std.specs.Io.{WritesAtMost};
ghost use Rattle.std.specs.Option.{option_map};
ghost use Rattle.desk_values.specs.Reading.{txt_in};
ghost use Rattle.desk_files.specs.Outside.{Told};
ghost use Rattle.replay_cli.specs.Called.{Copies, word_in};

use desk_values::{Bytes, List, Memory, TEXT_LIMIT, Txt, TxtErr};
use std::alloc::Global;
use std::env::{Env, FillError};

/// What a program is called with: its name, and words.
pub trait Called {
    /// The bytes of the name and of each word, where they are told.
    ghost words: { Self → Option (Sequence (Sequence ℕ)) };

    /// Copies the one at a place from 0 to the start of the buffer, and gives its length.
    fn word(&self, place: usize, buffer: &mut [u8]) -> Result<usize, FillError>
        ensures bound { WritesAtMost result buffer.new }
        ensures says { Told (words self.now) (λ all. Copies (slice_get all place) result buffer.new) };
}

/// Those of an environment, which it does not tell.
#[derive(Drop)]
pub struct Arguments<'a, E> {
    /// The environment.
    pub environment: &'a E,
}

impl<E: Env> Called for Arguments<'_, E> {
    ghost words = { λ _. None };

    fn word(&self, place: usize, buffer: &mut [u8]) -> Result<usize, FillError>
        ensures bound { WritesAtMost result buffer.new }
    {
        self.environment.arg(place, buffer)
    }
}

/// Those that are listed.
impl Called for List<Bytes> {
    ghost words = { λ all. Some all };

    fn word(&self, place: usize, buffer: &mut [u8]) -> Result<usize, FillError>
        ensures bound { WritesAtMost result buffer.new }
        ensures says { Copies (slice_get self.now place) result buffer.new }
    {
        let Some(word) = self.get(place) else {
            return Err(FillError::NotPresent);
        };
        let bytes = word.as_slice();
        if bytes.len() > buffer.len() {
            return Err(FillError::TooLong);
        }
        buffer[..bytes.len()].copy_from_slice(bytes);
        Ok(bytes.len())
    }
}

/// The words after the program's name.
///
/// A word of over 1,000 bytes, or one that is not UTF-8, counts as the empty word, which is in no command.
pub fn arguments_of<C: Called>(alloc: Global, called: &C) -> Result<List<Txt>, Memory>
    ensures { IfOk result (λ words. Told (C.words called.now) (λ all.
        length all < 2 ^ 63 → words ≡ map word_in (drop 1 all))) }
{
    let mut words = List::new(alloc);
    for place in 1..usize::MAX {
        match argument_at(alloc, called, place)? {
            Some(word) => words.push(word)?,
            None => break,
        }
    }
    Ok(words)
}

/// The word at a place from 0, the program's name. `None` past the last.
fn argument_at<C: Called>(alloc: Global, called: &C, place: usize) -> Result<Option<Txt>, Memory>
    ensures { IfOk result (λ found. Told (C.words called.now) (λ all.
        found ≡ option_map word_in (slice_get all place))) }
{
    let mut bytes = [0; TEXT_LIMIT];
    match called.word(place, &mut bytes) {
        Ok(len) => Ok(Some(word_of(alloc, &bytes[..len])?)),
        Err(FillError::TooLong) => Ok(Some(empty_word(alloc)?)),
        Err(FillError::NotPresent) => Ok(None),
    }
}

/// The word that the bytes are: their text, or the empty text where they are over 1,000 or are not UTF-8.
pub fn word_of(alloc: Global, bytes: &[u8]) -> Result<Txt, Memory>
    ensures { IfOk result (λ word. word ≡ word_in bytes.now) }
{
    match Txt::from_bytes(alloc, bytes) {
        Ok(word) => Ok(word),
        Err(TxtErr::Memory) => Err(Memory),
        Err(TxtErr::TooLong) => empty_word(alloc),
        Err(TxtErr::NotUtf8) => empty_word(alloc),
    }
}

fn empty_word(alloc: Global) -> Result<Txt, Memory>
    ensures { IfOk result (λ word. word ≡ []) }
{
    Txt::from_bytes(alloc, &[]).map_err(|_| Memory)
}
