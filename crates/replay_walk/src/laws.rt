//! Laws of walks. A call does nothing: its clause is the law.

ghost use Rattle.replay_walk.specs.Walks.{AnswersAreSteps, CallsAreSteps, StartsChangeNothing};

/// An answer of a whole replay is that to a call of the capture, which can be sent again; its ids are new. A server that does it
/// again comes to the stage behind it.
pub fn answers_are_steps()
    ensures { AnswersAreSteps }
{}

/// A start leaves a replay at its stage.
pub fn starts_change_nothing()
    ensures { StartsChangeNothing }
{}

/// A call of a capture can be executed, and a server that does it again comes to the state behind it.
pub fn calls_are_steps()
    ensures { CallsAreSteps }
{}
