//! Laws of captured calls. A call does nothing: its clause is the law.

ghost use Rattle.std.specs.Prelude.{◌≡◌, ◌≤◌, ◌<◌, ◌↔◌, ◌++◌, ◌∷◌, [], ℕ, false, List, length, take};
ghost use Rattle.std.specs.Bool.{Decides};
ghost use Rattle.std.specs.List.{AllByRecursion};
ghost use Rattle.std.specs.List.Sorted.{IsPermutation};
ghost use Rattle.desk_values.specs.declared.value.Image.{Image};
ghost use Rattle.desk_values.specs.declared.value.Value.{Value};
ghost use Rattle.desk_values.specs.declared.call.Reply.{Reply};
ghost use Rattle.desk_values.specs.declared.capture.Captured.{Captured};
ghost use Rattle.desk_values.specs.Good.{IsGoodReply};
ghost use Rattle.desk_schema.specs.Start.{StartView};
ghost use Rattle.capture_format.specs.SessionFile.{AreCallsOf, MayTellAll};
ghost use Rattle.replay_history.specs.Capture.{FitsIn, IsKnown, session_calls_before};
ghost use Rattle.replay_history.specs.Gap.{IsCallAt, IsJustBefore, IsStamped};
ghost use Rattle.object_depends.specs.declared.fact.Fact.{Fact};
ghost use Rattle.object_depends.specs.Facts.{AreSound};
ghost use Rattle.captured_calls.specs.Known.{ids_known, is_stranger};
ghost use Rattle.captured_calls.specs.Moments.{ended_in};
ghost use Rattle.captured_calls.specs.Numbered.{AreKnown, AreNumbered};
ghost use Rattle.captured_calls.specs.Same.{same_reply, same_value};
ghost use Rattle.captured_calls.specs.Sessions.{AreSessionsFrom, session_lists};
ghost use Rattle.captured_calls.specs.Stamped.{AllFit, ArePlaced, HasText};
ghost use Rattle.captured_calls.specs.Stamps.{HasEach, all_calls, by_stamp};
ghost use Rattle.captured_calls.specs.Verdict.{IsLegal};

/// The tests of two values and of two replies tell whether they are equal.
pub fn tests_tell_equality()
    ensures values { (left right : Value) → Decides (same_value left right) (left ≡ right) }
    ensures replies { (left right : Reply) → Decides (same_reply left right) (left ≡ right) }
{}

/// Where each number is the stamp of one call, the calls by stamp are all calls in another order, each at its stamp. No other
/// order has each call there.
pub fn calls_stand_by_stamp()
    ensures all { (calls : List Captured) → HasEach calls → IsPermutation calls (by_stamp calls) }
    ensures stamps { (calls : List Captured) → HasEach calls → IsStamped (by_stamp calls) }
    ensures one { (calls ordered : List Captured) → IsPermutation calls ordered → IsStamped ordered
        → HasEach calls × (ordered ≡ by_stamp calls) }
{}

/// The calls of sessions stand by stamp behind as many calls of their own session as their places say.
pub fn calls_keep_places()
    ensures { (lists : List (List Captured)) → AreSessionsFrom 0 lists → HasEach (all_calls lists)
        → ArePlaced (by_stamp (all_calls lists)) }
{}

/// The calls of each session, of calls that stand by stamp at their places and have texts, can be written as its file. Behind
/// the lists of sessions may stand that of the next one.
pub fn sessions_have_files()
    ensures files { (calls : List Captured) (count : ℕ) → IsStamped calls → ArePlaced calls
        → AllByRecursion HasText calls → AreSessionsFrom 0 (session_lists count calls) }
    ensures more { (lists : List (List Captured)) (calls : List Captured) → AreSessionsFrom 0 lists
        → AreCallsOf (length lists) calls → AreSessionsFrom 0 (lists ++ calls ∷ []) }
{}

/// Each of a legal capture's calls, also by their sessions, got a reply that a server of the start's version may give.
pub fn legal_calls_are_told()
    ensures calls { (start : StartView) (calls : List Captured) → IsLegal start calls → MayTellAll start.schema.version calls }
    ensures lists { (start : StartView) (calls : List Captured) (count : ℕ) → IsLegal start calls
        → AllByRecursion (MayTellAll start.schema.version) (session_lists count calls) }
{}

/// A call that stands behind as many calls of its session as its place says begins no earlier than the last of them ended,
/// just where it begins no earlier than the call at the place before its own ended.
pub fn calls_follow()
    ensures { (calls : List Captured) (k : ℕ) (call : Captured) → ArePlaced calls
        → call.place ≡ session_calls_before calls call.session k
        → (ended_in call.session (take k calls) ≤ call.began)
        ↔ ((j : ℕ) (before : Captured) → IsCallAt calls j before → IsJustBefore before call → before.ended ≤ call.began) }
{}

/// Calls that fit where they stand still do with one more behind them that fits there.
pub fn fitting_calls_grow()
    ensures { (rows : List Image) (calls : List Captured) (new : Captured) → AllFit rows calls
        → FitsIn rows calls (length calls) new → AllFit rows (calls ++ new ∷ []) }
{}

/// A value is no stranger to the calls before a stamp where a client could know it, and only there where each reply is good.
pub fn known_values_are_no_strangers()
    ensures known { (rows : List Image) (calls : List Captured) (k : ℕ) (value : Value)
        → IsKnown rows calls k value → is_stranger (ids_known rows (take k calls)) value ≡ false }
    ensures only { (rows : List Image) (calls : List Captured) (k : ℕ) (value : Value)
        → AllByRecursion (λ (call : Captured). IsGoodReply call.reply) calls
        → is_stranger (ids_known rows (take k calls)) value ≡ false → IsKnown rows calls k value }
{}

/// What is known of calls is sound where it agrees with them, and they have the numbers of their commits.
pub fn known_facts_are_sound()
    ensures { (calls : List Captured) (facts : List Fact) → AreNumbered calls → AreKnown calls facts → AreSound facts }
{}
