//! A JSON text is the text of one thing alone.
//!
//! With the contracts of the readers and writers, each undoes the other.

ghost use Rattle.std.specs.Prelude.{◌≡◌, ℕ, List};
ghost use Rattle.desk_values.specs.declared.call.Call.{Call};
ghost use Rattle.desk_values.specs.declared.call.Reply.{Reply};
ghost use Rattle.call_json.specs.Spellings.{IsCallJson, IsReplyJson};

/// Bytes are a JSON text of at most one call.
pub fn one_json_call()
    ensures { (bytes : List ℕ) (a b : Call) → IsCallJson bytes a → IsCallJson bytes b → a ≡ b }
{}

/// Bytes are a JSON text of at most one reply.
pub fn one_json_reply()
    ensures { (bytes : List ℕ) (a b : Reply) → IsReplyJson bytes a → IsReplyJson bytes b → a ≡ b }
{}
