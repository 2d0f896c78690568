//! Laws of histories and of calls. A call does nothing: its clause is the law.

ghost use Rattle.std.specs.Prelude.{ℕ};
ghost use Rattle.desk_values.specs.declared.call.Reply.{Reply};
ghost use Rattle.desk_values.specs.declared.capture.Captured.{Captured};
ghost use Rattle.law_histories.specs.Laws.{CallsHaveOneBefore, CallsHaveOneGap, LegalWithAnAnswer, LegalWithAStart, PlacesRise, TruthfulWithAnAnswer, TruthfulWithAStart};

/// The rules of a replay.
pub trait Rules {
    /// The first call waits for the answer of the second.
    ghost required: { ℕ → ℕ → Type 0 };

    /// This is a pause of the call.
    ghost paused: { Captured → ℕ → Type 0 };
}

/// The states of a machine that answers calls.
pub trait Machine {
    /// In the state the call with this stamp gets this reply, which leaves the other state.
    ghost executes: { Self → ℕ → Reply → Self → Type 0 };
}

/// A legal history with a start more is legal exactly where the call may go, and with an answer more exactly where the call is
/// started and not answered.
pub fn legal_histories_grow<R: Rules>()
    ensures start { LegalWithAStart R.required R.paused }
    ensures answer { LegalWithAnAnswer R.required R.paused }
{}

/// A history with a start more is truthful exactly where it is, and with an answer more exactly where the answer is one step on
/// from where it leads.
pub fn truthful_histories_grow<M: Machine>()
    ensures start { TruthfulWithAStart M.executes }
    ensures answer { TruthfulWithAnAnswer M.executes }
{}

/// Of two calls of a session the later one has the higher place. Each call but a session's first has one just before it, which
/// stands before it.
pub fn calls_keep_their_order()
    ensures rise { PlacesRise }
    ensures before { CallsHaveOneBefore }
{}

/// Each call has one time before it, the one that `gap_of` gives, and that is no longer than from the capture's start to the call.
pub fn calls_have_one_gap()
    ensures { CallsHaveOneGap }
{}
