//! Texts that were read, by how they are spelled. Most calls of a capture have one of a few texts, which is judged once and then
//! copied.

ghost use Rattle.std.specs.Prelude.{◌≡◌, Some, IfSome};
ghost use Rattle.std.specs.Str.{bytes_eq};
ghost use Rattle.desk_values.specs.Reading.{Reads, txt_of};

use desk_values::fields::read_text;
use desk_values::{Copied, List, Memory, ReadErr, Txt};
use std::alloc::Global;
use std::marker::Model;

/// How many texts of a file are kept: the first ones.
pub(crate) const KEPT_TEXTS: usize = 16;

// A text that was read. Contracts see how it is spelled.
#[derive(Drop)]
struct KnownText {
    spelled: String,
    text: Txt,
}

impl Model for KnownText {
    ghost use Rattle.std.specs.Prelude.{List, ℕ, ◌≡◌, Some};
    ghost use Rattle.std.specs.String.{string_bytes};
    ghost use Rattle.desk_values.specs.Reading.{txt_of};

    ghost Value = { List ℕ };

    ghost view = { λ a. string_bytes a.spelled };

    ghost invariant = { λ a. txt_of (string_bytes a.spelled) ≡ Some a.text };
}

impl KnownText {
    fn text(&self) -> &Txt
        ensures { txt_of self.now ≡ Some result.now }
    {
        &self.text
    }

    fn is_spelled(&self, spelled: &str) -> bool
        ensures { result ≡ bytes_eq self.now spelled.now }
    {
        self.spelled.as_str() == spelled
    }
}

/// The first texts that were read.
#[derive(Drop)]
pub(crate) struct KnownTexts {
    alloc: Global,
    most: usize,
    texts: List<KnownText>,
}

impl KnownTexts {
    /// No texts, and room for so many.
    pub(crate) fn new(alloc: Global, most: usize) -> KnownTexts {
        KnownTexts {
            alloc,
            most,
            texts: List::new(alloc),
        }
    }

    /// The text that all the bytes spell, as [`read_text`] reads it.
    pub(crate) fn read(&mut self, bytes: &[u8]) -> Result<Txt, ReadErr>
        ensures { Reads result (txt_of bytes.now) }
    {
        // Texts are compared faster than bytes.
        match std::str::from_utf8(bytes) {
            Ok(spelled) => self.read_spelled(spelled),
            Err(_) => read_text(self.alloc, bytes),
        }
    }

    fn read_spelled(&mut self, spelled: &str) -> Result<Txt, ReadErr>
        ensures { Reads result (txt_of spelled.now) }
    {
        if let Some(known) = self.known(spelled) {
            return Ok(known.copy()?);
        }
        let text = read_text(self.alloc, spelled.as_bytes())?;
        if self.texts.len() < self.most {
            self.keep(spelled, &text)?;
        }
        Ok(text)
    }

    // The text of this spelling, where it is kept.
    fn known(&self, spelled: &str) -> Option<&Txt>
        ensures { IfSome result (λ text. txt_of spelled.now ≡ Some text.now) }
    {
        for known in self.texts.as_slice() {
            if known.is_spelled(spelled) {
                return Some(known.text());
            }
        }
        None
    }

    fn keep(&mut self, spelled: &str, text: &Txt) -> Result<(), Memory>
        requires { txt_of spelled.now ≡ Some text.now }
    {
        let spelled = String::from_str(self.alloc, spelled)?;
        let text = text.copy()?;
        self.texts.push(KnownText { spelled, text })
    }
}
