//! Why a statement is refused at its table, and that an accepted one had no cause to be.
//!
//! `specs/Met.antt` says what a run of a statement meets, by the book and the branch history as they stand before its turn, and
//! what it is answered. Proved of every lawful run are parts of it: whose the locks of a node are, which keys are in doubt; that an
//! accepted run met none of them, and no row that another live branch has changed; and that a refused one had a cause.
#![tactic(auto)]

ghost use Rattle.refusal_laws.specs.AcceptedLaws.{AcceptedRunsMeetNobody};
ghost use Rattle.refusal_laws.specs.ApartLaws.{LivesChangeApart};
ghost use Rattle.refusal_laws.specs.Holders.{DoubtsAreOfTheBook, LocksAreOfBranches};
ghost use Rattle.refusal_laws.specs.RefusedLaws.{RefusalsHaveCauses};
ghost use Rattle.refusal_laws.specs.TriedMet.{TheTriedMet};

/// Each lock in doubt of a node is of a branch in doubt, on a key that it has changed; each other lock is of a live branch.
pub fn locks_are_of_branches()
    ensures { LocksAreOfBranches }
{}

/// So a key is held in doubt at its node exactly where a branch that the book has in doubt has changed it, and by that branch.
pub fn doubts_are_of_the_book()
    ensures { DoubtsAreOfTheBook }
{}

/// A statement that is accepted at its table is right by itself, examined no key that is in doubt by the book, and writes no key
/// that another live branch of the node has changed by the branch history; and its branch's changes stay within their limit.
pub fn accepted_runs_meet_nobody()
    ensures { AcceptedRunsMeetNobody }
{}

/// So two live branches of a node never have changed one key.
pub fn lives_change_apart()
    ensures { LivesChangeApart }
{}

/// A statement of a live branch is refused at a table of its node only for a cause by the book and the branch history: for its
/// text; for an SCN that lies too far back; for a key in doubt, where the refusal names the branch in doubt that has changed the
/// first such key that it examines; for a key that another live branch, which it names, holds; for what it means over the rows of
/// the book; or for want of space. The first three come in this order, before all others.
pub fn refusals_have_causes()
    ensures { RefusalsHaveCauses }
{}

/// What a statement meets by the book and the branch history is what it meets at its node, in the tried run: a row that another
/// session puts in is refused while its branch is live, while it is in doubt, and when it has committed, each for its own cause.
pub fn the_tried_met()
    ensures { TheTriedMet }
{}
