//! The bytes that are sent for a call.

ghost use Rattle.std.specs.Prelude.{◌≡◌, ◌++◌, IfOk, OnOk};
ghost use Rattle.remote_link.specs.Talk.{request_head, request_text};

use call_json::call_to_json;
use desk_values::fields::append_u64;
use desk_values::{Bytes, Call, Memory};
use std::alloc::Global;

/// The request whose body is the call's JSON text.
pub(crate) fn request_of(alloc: Global, call: &Call) -> Result<Bytes, Memory>
    ensures { IfOk result (λ bytes. bytes ≡ request_text call.now) }
{
    let body = call_to_json(alloc, call)?;
    let mut bytes = Bytes::new(alloc);
    append_head(body.len(), &mut bytes)?;
    bytes.append(body.as_slice())?;
    Ok(bytes)
}

// Its head, for a body of so many bytes.
#[tactic(auto, unfolding(crate::specs::Talk::request_head))]
fn append_head(n: usize, to: &mut Bytes) -> Result<(), Memory>
    ensures { OnOk result (to.new ≡ to.old ++ request_head n) }
{
    to.append(b"POST /call HTTP/1.1\r\nHost: 127.0.0.1\r\nContent-Length: ")?;
    append_u64(n as u64, to)?;
    to.append(b"\r\n\r\n")
}
