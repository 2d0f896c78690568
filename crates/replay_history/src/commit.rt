//! Numbered commits.

ghost use Rattle.std.specs.Prelude.{◌≡◌};
ghost use Rattle.replay_history.specs.Capture.{commits};

use desk_values::Outcome;

/// Whether the reply with this outcome is that of a numbered commit: it committed something.
pub fn commits(outcome: &Outcome) -> bool
    ensures { result ≡ commits outcome.now }
{
    match outcome {
        Outcome::Committed(images) => !images.is_empty(),
        _ => false,
    }
}
