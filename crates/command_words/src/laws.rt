//! What a reader may want to know of the definitions.

ghost use Rattle.std.specs.Prelude.{◌≡◌, ℕ, List};
ghost use Rattle.command_words.specs.Commands.{Means, Request};

/// Words mean at most one command.
pub fn one_command()
    ensures { (words : List (List ℕ)) (request other : Request)
        → Means words request → Means words other → request ≡ other }
{}
