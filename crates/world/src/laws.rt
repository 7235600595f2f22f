//! The laws of runs that the world stands on.
ghost use Rattle.world.specs.Needs.{DueTurnsCanBeTaken, DueMessagesAreThere, DueNodesAreThere, EachStartsSeldom, DeliveriesAreFew};

use run_number_laws::{
    commits_find_work, deliveries_are_within, due_is_there, due_turns_find_able, each_starts_seldom,
};
use run_ready_laws::{counts_are_few, the_run_is_lawful};
use run_spell_laws::{calls_are_spelled, runs_have_bytes};

/// The turn that is due can be taken.
#[tactic(auto, using(crate::proofs::NeedLemmas::turns_taken))]
fn due_turns_can_be_taken()
    ensures { DueTurnsCanBeTaken }
{
    the_run_is_lawful();
    counts_are_few();
    due_turns_find_able();
    commits_find_work();
    calls_are_spelled();
    runs_have_bytes();
}

/// The turn that is due can be taken, its message is there, and what is due names nodes that there are.
#[tactic(auto, using(crate::proofs::NeedLemmas::messages_there, crate::proofs::NeedLemmas::nodes_there))]
pub(crate) fn what_is_due_can_happen()
    ensures turns { DueTurnsCanBeTaken }
    ensures messages { DueMessagesAreThere }
    ensures nodes { DueNodesAreThere }
{
    due_turns_can_be_taken();
    due_is_there();
}

/// Nodes start seldom, and a command makes few deliveries.
#[tactic(auto, using(crate::proofs::NeedLemmas::starts_few, crate::proofs::NeedLemmas::deliveries_few))]
pub(crate) fn numbers_stay_small()
    ensures starts { EachStartsSeldom }
    ensures deliveries { DeliveriesAreFew }
{
    each_starts_seldom();
    deliveries_are_within();
}
