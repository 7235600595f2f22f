//! What holds of the script of every number. This function does nothing: its contract is the theorem.
ghost use Rattle.make_script.specs.Read.{IsRead, ScriptsAreWithin};

/// The script of a number is read as its commands, so it is never a bad one, and it is within the limit of a script.
pub fn made_scripts_are_read()
    ensures read { IsRead }
    ensures within { ScriptsAreWithin }
{}
