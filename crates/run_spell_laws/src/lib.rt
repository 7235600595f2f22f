//! In every lawful run what a node writes and says has bytes, where clients ask for statements that texts spell.
#![tactic(auto)]

ghost use Rattle.run_spell_laws.specs.ByteRuns.{NodesKeepBytes, MessagesHaveBytes, TurnsHaveBytes, ScriptsCallsAreSpelled, DueCallsAreSpelled, DueTurnsHaveBytes};

use node_spell_laws::{messages_fit, records_fit};
use run_ready_laws::{nodes_are_ready, the_run_is_lawful};

/// In every lawful run whose Replies tell of no more branches than a Reply may, and whose calls are of statements that texts spell,
/// each node that is up keeps what has bytes, each message that was sent has bytes, and so have the record and the messages of
/// each turn that may come next.
pub fn runs_have_bytes()
    ensures nodes { NodesKeepBytes }
    ensures messages { MessagesHaveBytes }
    ensures turns { TurnsHaveBytes }
{
    nodes_are_ready();
    messages_fit();
    records_fit();
}

/// In the run of a script whose commands ask for statements that texts spell, each call is of such a statement, and so is the call
/// that is due.
pub fn calls_are_spelled()
    ensures calls { ScriptsCallsAreSpelled }
    ensures due { DueCallsAreSpelled }
{}

/// In the run of such a script, whose Replies tell of no more branches than a Reply may, the record and the messages of the turn that
/// is due have bytes, where the node expects what comes, has few links, and its clock leaves room for an SCN.
pub fn due_turns_have_bytes()
    ensures { DueTurnsHaveBytes }
{
    the_run_is_lawful();
    runs_have_bytes();
}
