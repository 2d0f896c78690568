//! Statements from the one text that is written for them.

ghost use Rattle.std.specs.Prelude.{◌≡◌, IfSome};
ghost use Rattle.std.specs.Str.{IsUtf8};
ghost use Rattle.call_json.specs.Forms.{call_text};

use crate::spelled::{behind, ends, list_front, text_front};
use desk_values::{BIND_LIMIT, Binds, Call};
use std::alloc::Global;

/// The statement whose text all the bytes are, as it is written, where its texts need no escapes and no bind is an id.
/// `None` of what is spelled otherwise, and for want of memory.
pub(crate) fn statement_as_written(alloc: Global, bytes: &[u8]) -> Option<Call>
    ensures { IfSome result (λ call. IsUtf8 bytes.now × (bytes.now ≡ call_text call)) }
{
    let Ok(_) = std::str::from_utf8(bytes) else {
        return None;
    };
    let opened = behind(bytes, b"{\"binds\":")?;
    let (binds, after_binds) = list_front(alloc, opened)?;
    let before_text = behind(after_binds, b",\"sql\":")?;
    let (text, after_text) = text_front(alloc, before_text)?;
    ends(after_text, b"}")?;
    if binds.len() > BIND_LIMIT {
        return None;
    }
    Some(Call::Sql(text, Binds::from_values(binds)))
}
