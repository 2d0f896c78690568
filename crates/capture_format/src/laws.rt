//! The bytes of a file are the file of one thing alone, and so are those of a call and of a reply.
//!
//! With the contracts of the readers and writers, each undoes the other.

ghost use Rattle.std.specs.Prelude.{◌≡◌, ℕ, List};
ghost use Rattle.desk_values.specs.declared.call.Call.{Call};
ghost use Rattle.desk_values.specs.declared.call.Reply.{Reply};
ghost use Rattle.desk_values.specs.declared.capture.Captured.{Captured};
ghost use Rattle.desk_values.specs.Good.{IsCall, IsGoodReply};
ghost use Rattle.desk_values.specs.Text.{call_text, reply_text};
ghost use Rattle.capture_format.specs.declared.start.StartFile.{StartFile};
ghost use Rattle.capture_format.specs.StartFile.{IsBadStart, IsStartFile};
ghost use Rattle.capture_format.specs.SessionFile.{IsBadSession, IsSessionFile};

/// Bytes are the start file of at most one start.
pub fn one_start()
    ensures { (bytes : List ℕ) (file other : StartFile) → IsStartFile bytes file → IsStartFile bytes other → file ≡ other }
{}

/// Bytes are the file of a session with at most one list of calls.
pub fn one_session()
    ensures { (session version : ℕ) (bytes : List ℕ) (calls others : List Captured)
        → IsSessionFile session version bytes calls → IsSessionFile session version bytes others → calls ≡ others }
{}

/// Bytes have at most one first line that is none of a start file.
pub fn one_bad_start()
    ensures { (bytes : List ℕ) (line other : ℕ) → IsBadStart bytes line → IsBadStart bytes other → line ≡ other }
{}

/// Bytes have at most one first line that is none of the file of a session.
pub fn one_bad_session()
    ensures { (session version : ℕ) (bytes : List ℕ) (line other : ℕ) → IsBadSession session version bytes line
        → IsBadSession session version bytes other → line ≡ other }
{}

/// A text is the text of at most one call.
pub fn one_call_text()
    ensures { (a b : Call) → IsCall a → IsCall b → call_text a ≡ call_text b → a ≡ b }
{}

/// A text is the text of at most one good reply.
pub fn one_reply_text()
    ensures { (a b : Reply) → IsGoodReply a → IsGoodReply b → reply_text a ≡ reply_text b → a ≡ b }
{}
