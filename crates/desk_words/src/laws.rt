//! Laws of the definitions.

ghost use Rattle.std.specs.Prelude.{ℕ, List, IfSome};
ghost use Rattle.desk_words.specs.Command.{command_of};
ghost use Rattle.desk_words.specs.Within.{IsWithinLimits};

/// What a command says lies within its limits.
pub fn commands_are_within_limits()
    ensures { (words : List (List ℕ)) → IfSome (command_of words) IsWithinLimits }
{}
