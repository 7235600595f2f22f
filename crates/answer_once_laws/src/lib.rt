//! Each command of a script is answered once: at once, or by `waiting` and later by the end of its call.
#![tactic(auto)]

ghost use Rattle.answer_once_laws.specs.OnceLaws.{EveryCommandIsAnsweredOnce};
ghost use Rattle.answer_once_laws.specs.TriedOnce.{TheTriedOnce};

/// In the run of a script each command that was done has one answer of its own in the report: what its call ended with, `ok`, a
/// refusal, or what it shows. Only a command whose call is pending, with HOLD on, has `waiting` instead; once the call has ended
/// there is one answer more, and never two, and it stands among the lines of the command in whose course the call ended. All other
/// lines with its number are notices: that a point of its comment was reached, that a node stopped in its course, that messages
/// are left. It is so after each happening, and of all commands where the script was run to its end.
pub fn every_command_is_answered_once()
    ensures { EveryCommandIsAnsweredOnce }
{}

/// This is about something: in the tried script a COMMIT waits and is given up in the course of the next command, which has its
/// own answer; and a START of a node that is up is refused.
pub fn the_tried_once()
    ensures { TheTriedOnce }
{}
