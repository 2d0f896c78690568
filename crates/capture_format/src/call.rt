//! Calls from their texts and as their texts.

ghost use Rattle.std.specs.Prelude.{◌≡◌, ◌++◌, Some, IfOk, OnOk, OnErr};
ghost use Rattle.desk_values.specs.declared.call.Call.{Call};
ghost use Rattle.desk_values.specs.Good.{IsCall};
ghost use Rattle.desk_values.specs.Text.{call_text};
ghost use Rattle.desk_values.specs.Reading.{Reads};
ghost use Rattle.capture_format.specs.CallReading.{sql_of, call_of};

use crate::known_texts::KnownTexts;
use desk_values::fields::{append_text, cut, cut_near};
use desk_values::{
    BIND_LIMIT, Binds, Bytes, Call, List, Memory, ReadErr, read_values, write_values,
};
use std::alloc::Global;

/// The call that all the bytes spell: `connect tmain` with the service, `sql tCOMMIT [i1]` with the statement's text and
/// its binds, or `disconnect`. Texts are read by [`desk_values::fields::read_text`] and binds, up to 16, by
/// [`read_values`]. `Bad` exactly where the bytes spell no call; `Memory` for want of memory.
pub fn read_call(alloc: Global, bytes: &[u8]) -> Result<Call, ReadErr>
    ensures ok { IfOk result (λ call. IsCall call × (bytes.now ≡ call_text call)) }
    ensures only { (call : Call) → IsCall call → bytes.now ≡ call_text call → Reads result (Some call) }
    ensures value { Reads result (call_of bytes.now) }
{
    call(alloc, &mut KnownTexts::new(alloc, 0), bytes)
}

/// The same, with the texts that were read before.
#[tactic(auto, unfolding(crate::specs::CallReading::call_of))]
pub(crate) fn call(alloc: Global, texts: &mut KnownTexts, bytes: &[u8]) -> Result<Call, ReadErr>
    ensures { Reads result (call_of bytes.now) }
{
    if bytes == b"disconnect".as_slice() {
        return Ok(Call::Disconnect);
    }
    let (word, rest) = cut_near(bytes, b' ').ok_or(ReadErr::Bad)?;
    if word == b"connect".as_slice() {
        Ok(Call::Connect(texts.read(rest)?))
    } else if word == b"sql".as_slice() {
        sql(alloc, texts, rest)
    } else {
        Err(ReadErr::Bad)
    }
}

// A statement's text and the values of its binds.
#[tactic(auto, unfolding(crate::specs::CallReading::sql_of))]
fn sql(alloc: Global, texts: &mut KnownTexts, bytes: &[u8]) -> Result<Call, ReadErr>
    ensures { Reads result (sql_of bytes.now) }
{
    let (text, binds) = cut(bytes, b' ').ok_or(ReadErr::Bad)?;
    let text = texts.read(text)?;
    let binds = read_values(alloc, binds)?;
    if binds.len() > BIND_LIMIT {
        return Err(ReadErr::Bad);
    }
    Ok(Call::Sql(text, Binds::from_values(binds)))
}

/// The one text of a call, as [`read_call`] reads it. It fails for want of memory alone.
pub fn write_call(alloc: Global, call: &Call) -> Result<Bytes, Memory>
    ensures { IfOk result (λ bytes. bytes ≡ call_text call.now) }
{
    let mut text = List::new(alloc);
    push_call(call, &mut text)?;
    Ok(text)
}

/// Appends the one text of a call, as [`read_call`] reads it. An `Err` is want of memory, and changes nothing.
pub fn append_call(call: &Call, to: &mut Bytes) -> Result<(), Memory>
    ensures ok { OnOk result (to.new ≡ to.old ++ call_text call.now) }
    ensures err { OnErr result (to.new ≡ to.old) }
{
    // The text is made apart, so that a refusal leaves `to` as it was.
    let mut text = List::new(to.allocator());
    push_call(call, &mut text)?;
    to.append(text.as_slice())
}

fn push_call(call: &Call, to: &mut Bytes) -> Result<(), Memory>
    ensures { OnOk result (to.new ≡ to.old ++ call_text call.now) }
{
    match call {
        Call::Connect(service) => {
            to.append(b"connect ")?;
            append_text(service, to)
        }
        Call::Sql(text, binds) => {
            to.append(b"sql ")?;
            append_text(text, to)?;
            to.push(b' ')?;
            write_values(binds.as_slice(), to)
        }
        Call::Disconnect => to.append(b"disconnect"),
    }
}
