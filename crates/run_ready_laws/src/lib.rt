//! The run of a script is a lawful run, and its nodes are ready for whatever comes to them next.
//!
//! An Exec carries the room that its session tree still has, and a branch that takes it opens no more children than that. So
//! its Reply tells of no more branches than its parent knew and the Exec had room for, and no Reply tells of more than a
//! session tree may have (`specs/CountLaws.antt`).
#![tactic(auto)]

ghost use Rattle.run_rules.specs.Scripts.{TheRunIsLawful};
ghost use Rattle.run_ready_laws.specs.ReadyRuns.{NodesAreReady, InputsAreExpected};
ghost use Rattle.run_ready_laws.specs.CountLaws.{ComersAreExpected, CountsAreFew, CountsAreOfTrees, InputsAreAlwaysExpected, NodesAreAlwaysReady};

use node_ready_laws::{records_follow, starts_are_ready, turns_stay_ready};

/// The run of a script is a lawful run: whatever is due may come. So each law of lawful runs holds of it.
pub fn the_run_is_lawful()
    ensures { TheRunIsLawful }
{}

/// In every lawful run whose Replies tell of no more branches than a Reply may, each node that is up is ready for its next
/// turn, and each input that comes to it is one that it is ready for.
pub fn nodes_are_ready()
    ensures ready { NodesAreReady }
    ensures inputs { InputsAreExpected }
{
    turns_stay_ready();
    starts_are_ready();
    records_follow();
}

/// No Reply tells of more branches than a session tree may have, and so none of more than a Reply may.
pub fn counts_are_few()
    ensures trees { CountsAreOfTrees }
    ensures few { CountsAreFew }
{}

/// In every lawful run each node that is up is ready for its next turn, and each input that comes to it is one that it is ready for, as is
/// each that may come next.
pub fn nodes_are_always_ready()
    ensures ready { NodesAreAlwaysReady }
    ensures inputs { InputsAreAlwaysExpected }
    ensures comers { ComersAreExpected }
{
    nodes_are_ready();
}
