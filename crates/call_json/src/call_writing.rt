//! Calls as tokens of JSON.

ghost use Rattle.std.specs.Prelude.{◌≡◌, ◌++◌, OnOk};
ghost use Rattle.call_json.specs.Forms.{call_data};
ghost use Rattle.call_json.specs.Inside.Tokens.{data_tokens};

use crate::writing::{push_list, push_text, push_yes};
use desk_values::Call;
use json::Writer;
use std::alloc::AllocError;

/// A call.
pub(crate) fn push_call(call: &Call, to: &mut Writer) -> Result<(), AllocError>
    ensures tokens { OnOk result (to.new.tokens ≡ to.old.tokens ++ data_tokens (call_data call.now)) }
    ensures before { OnOk result (to.new.before ≡ to.old.before) }
{
    match call {
        Call::Connect(service) => {
            to.begin_object()?;
            push_text("connect", service, to)?;
            to.end_object()
        }
        Call::Sql(text, binds) => {
            to.begin_object()?;
            push_list("binds", binds.as_slice(), to)?;
            push_text("sql", text, to)?;
            to.end_object()
        }
        Call::Disconnect => push_yes("disconnect", to),
    }
}
