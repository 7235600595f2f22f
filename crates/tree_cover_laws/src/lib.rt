//! Each decision covers its tree: every branch with changes is sealed before the commit point site decides, and a seal names
//! its parent and its neighbour on the way to the site.
//!
//! - Refusals of branches of which their node knows nothing any more go up to the root, and a root that hears of one needs a
//!   rollback. So where a COMMIT is accepted, every branch of the tree was answered by each child that it called
//!   (`specs/GoneLaws.antt`).
//! - A parent holds the weight that its child sent with its last answer, and the happenings give the child that same weight,
//!   also once the child's node has stopped (`specs/ToldLaws.antt`).
//! - When the COMMIT comes, the live branches of a session tree rest and weigh what their parents hold of them
//!   (`proofs/StandLemmas.antt`). So the walk by the happenings makes the steps that live branches make
//!   (`proofs/StepLemmas.antt`), and those that are asked later ask and answer by these steps (`proofs/StayLemmas.antt`). The
//!   plan of the COMMIT therefore has each branch that is sealed, with the neighbours that its record names
//!   (`specs/NeighborLaws.antt`).
#![tactic(auto)]

ghost use Rattle.tree_cover_laws.specs.GoneLaws.{CallsFollowAnswers};
ghost use Rattle.tree_cover_laws.specs.ToldLaws.{AnswersTellWeights};
ghost use Rattle.run_claims.specs.Headline.{EveryDecisionCovers};
ghost use Rattle.tree_cover_laws.specs.NeighborLaws.{SealsNameToward};
ghost use Rattle.tree_cover_laws.specs.TriedNeighbors.{TheTriedNeighbors};
ghost use Rattle.tree_cover_laws.specs.TriedDropped.{TheTriedDropped};

use tree_trail_laws::decisions_cover;

/// A branch makes the next call to a child only after an answer of the child to the call before that is no refusal of a gone
/// branch.
pub fn calls_follow_answers()
    ensures { CallsFollowAnswers }
{}

/// The weight that a child told with its answer to the last call is the one that the happenings tell of it, live or dropped.
pub fn answers_tell_weights()
    ensures { AnswersTellWeights }
{}

/// In every lawful run each seal is of a branch of the tree of the COMMIT, and names that branch's parent and its neighbour on
/// the way to the commit point site.
pub fn seals_name_toward()
    ensures { SealsNameToward }
{}

/// So each decision covers its tree: every other branch with changes on it or below it is sealed before, seals and decisions have
/// their branches' own changes, and seals name their branches' neighbours.
pub fn every_decision_covers()
    ensures { EveryDecisionCovers }
{
    decisions_cover();
    seals_name_toward();
}

/// The law is about something: in the tried run of two nodes B is sealed below A, the site, and the plan has A as its parent
/// and on its way there.
pub fn the_tried_neighbors()
    ensures { TheTriedNeighbors }
{}

/// Where a branch is dropped before the COMMIT the plan has it all the same, with the weight that its parent holds: in a run of
/// three nodes C, the site, has stopped before, and B is sealed with A on its way to C, by the plan and by its record.
pub fn the_tried_dropped()
    ensures { TheTriedDropped }
{}
