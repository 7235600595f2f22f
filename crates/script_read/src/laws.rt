//! What holds of all scripts. These functions do nothing: their contracts are the theorems.
ghost use Rattle.std.specs.Prelude.{◌≡◌, ◌↔◌, ℕ, List, Some, Ok};
ghost use Rattle.script_read.specs.declared.command.Command.{Command};
ghost use Rattle.script_read.specs.Asked.{command_of, asked};
ghost use Rattle.script_read.specs.Spelled.{IsCommand, IsScript};

/// A text is read as the command that it spells, and as no other: it is outside the grammar exactly where it spells none.
pub fn commands_are_spelled()
    ensures { (names : List (List ℕ)) (text : List ℕ) (command : Command) → (command_of names text ≡ Some command) ↔ IsCommand names command text }
{}

/// Bytes ask for the commands that they are, and are bad exactly where they are no script.
pub fn scripts_are_spelled()
    ensures { (bytes : List ℕ) (commands : List Command) → (asked bytes ≡ Ok commands) ↔ IsScript commands bytes }
{}

/// No bytes are two scripts.
pub fn one_script()
    ensures { (bytes : List ℕ) (a b : List Command) → IsScript a bytes → IsScript b bytes → a ≡ b }
{}
