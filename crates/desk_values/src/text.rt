ghost use Rattle.std.specs.Prelude.{◌≡◌, ◌↔◌, ◌<◌, ◌≤◌, length, IfOk, IsErrOf};
ghost use Rattle.std.specs.Str.{IsUtf8};
ghost use Rattle.desk_values.specs.Limits.{text_limit};
ghost use Rattle.desk_values.specs.declared.text.TxtErr.TheVariants.{Memory as OutOfMemory};

use crate::memory::{Copied, Memory};
use std::alloc::{AllocError, Global};
use std::marker::Model;
use thiserror::Error;

/// The greatest number of bytes of a [`Txt`].
pub const TEXT_LIMIT: usize = 1000;

/// A text of at most 1,000 bytes of UTF-8. Contracts see its bytes.
#[derive(Drop)]
pub struct Txt {
    text: String,
}

impl Model for Txt {
    ghost use Rattle.std.specs.Prelude.{List, ℕ, ◌≤◌};
    ghost use Rattle.std.specs.String.{string_bytes, string_len};
    ghost use Rattle.desk_values.specs.Limits.{text_limit};

    ghost Value = { List ℕ };

    ghost view = { λ a. string_bytes a.text };

    ghost invariant = { λ a. string_len a.text ≤ text_limit };
}

/// Why bytes make no [`Txt`].
#[derive(Clone, Copy, Debug, PartialEq, Eq, Error)]
pub enum TxtErr {
    /// There are over 1,000.
    #[error("a text of over {TEXT_LIMIT} bytes")]
    TooLong,
    /// They are not UTF-8.
    #[error("a text that is not UTF-8")]
    NotUtf8,
    /// Want of memory.
    #[error("out of memory")]
    Memory,
}

impl From<AllocError> for TxtErr {
    ghost from_gives = { λ _ e. e ≡ OutOfMemory };

    fn from(_error: AllocError) -> TxtErr {
        TxtErr::Memory
    }
}

impl Txt {
    /// The text of these bytes. `TooLong` where there are over 1,000, whatever they are; else `NotUtf8` where they are no
    /// UTF-8 (RFC 3629: no overlong form, no surrogate, nothing above U+10FFFF); else `Memory` where memory is wanting.
    pub fn from_bytes(alloc: Global, bytes: &[u8]) -> Result<Txt, TxtErr>
        ensures ok { IfOk result (λ text. text ≡ bytes.now) }
        ensures too_long { IsErrOf result TxtErr.TooLong ↔ (text_limit < length bytes.now) }
        ensures not_utf8 { IsErrOf result TxtErr.NotUtf8 ↔ ((length bytes.now ≤ text_limit) × (¬ (IsUtf8 bytes.now))) }
    {
        if bytes.len() > TEXT_LIMIT {
            return Err(TxtErr::TooLong);
        }
        let Ok(text) = std::str::from_utf8(bytes) else {
            return Err(TxtErr::NotUtf8);
        };
        Ok(Txt {
            text: String::from_str(alloc, text)?,
        })
    }

    /// The text itself.
    pub fn as_str(&self) -> &str
        ensures value { result.now ≡ self.now }
        ensures limit { length self.now ≤ text_limit }
        ensures utf8 { IsUtf8 self.now }
    {
        self.text.as_str()
    }

    /// The allocator that the text is kept by.
    pub fn allocator(&self) -> Global {
        *self.text.allocator()
    }
}

impl Copied for Txt {
    fn copy(&self) -> Result<Txt, Memory> {
        Ok(Txt {
            text: String::from_str(*self.text.allocator(), self.text.as_str())?,
        })
    }
}
