//! The session trees of a run as its Prepares tell them: laws of every lawful run.
//!
//! Prepares go down from the root, one path of them leads to the commit point site, and what a live branch does in its prepare
//! phase is what its parent told it (`specs/AskLaws.antt`). So the Prepares of a run make a forest of its branches, in which every
//! edge leads toward the commit point site (`specs/Forests.antt`).
//!
//! The commit point site of a run: where a branch decides, the walk from its root ended there when the COMMIT came.
//!
//! While a root waits for nothing every live branch of its tree rests and weighs what its parent holds of it (`specs/WeighLaws.antt`), and
//! stays so (`specs/RestLaws.antt`). A branch that leaves without a rollback was asked, and asked its children (`specs/LeaveLaws.antt`). So
//! the tree of a root whose transaction is decided stands still from its COMMIT on, and the walk by its weights is the one that Prepares
//! tell (`specs/DecideLaws.antt`).
#![tactic(auto)]

ghost use Rattle.run_claims.specs.Headline.{EveryBookAgrees, EveryMixedIsMarked};
ghost use Rattle.tree_laws.specs.TriedForest.{TheTriedForest};
ghost use Rattle.tree_laws.specs.LeaveLaws.{LeaversAreComplete};

/// The book of every lawful run agrees, and its mixed outcomes are marked.
pub fn every_book_agrees()
    ensures agrees { EveryBookAgrees }
    ensures marked { EveryMixedIsMarked }
{}

/// No law of the forest is about nothing: in the tried run of two nodes the branch at B was asked off the walk, and is beyond the site.
pub fn the_tried_forest()
    ensures { TheTriedForest }
{}

/// A branch that leaves, and is not dropped, was asked by its parent and has asked its children. A site decides where the walk ends, and
/// a branch that answers without changes has no weight.
pub fn leavers_are_complete()
    ensures { LeaversAreComplete }
{}
