//! How a decided commit comes to each sealed branch of its transaction.
//!
//! A branch that knows a commit tells it to its neighbours away from the commit point site (`specs/TellLaws.antt`), and a
//! sealed one that heard it from its neighbour on the way to the site has learned it (`specs/HearLaws.antt`): laws of every
//! lawful run. So where all messages of a transaction came its commit reaches each sealed branch (`specs/ReachLaws.antt`).
//! No branch is sealed before the COMMIT, and none is forced in an undisturbed one (`specs/BeforeLaws.antt`), so each of its
//! sealed branches ends with commit, where one has decided (`specs/SealLaws.antt`).
//!
//! What an undisturbed COMMIT does to no branch of its transaction: none below the root is dropped.
//!
//! Proved of every lawful run is who got Prepare of its parent, and that nobody has asked when a COMMIT comes
//! (`specs/GotLaws.antt`). So where a COMMIT is undisturbed no branch of its transaction says Abort and none below the root
//! is dropped; its collect is over when nothing is in flight, and its root is live no more (`specs/StayLaws.antt`).
#![tactic(auto)]

ghost use Rattle.commit_spread_laws.specs.BeforeLaws.{NoneSealedBefore};
ghost use Rattle.commit_spread_laws.specs.HearLaws.{RowsHaveHeard};
ghost use Rattle.commit_spread_laws.specs.TriedTelling.{TheTriedTelling};
ghost use Rattle.commit_spread_laws.specs.GotLaws.{CollectorsGotPrepare};
ghost use Rattle.commit_spread_laws.specs.StayLaws.{UndisturbedCollectsAreOver, UndisturbedRootsAreGone};
ghost use Rattle.commit_spread_laws.specs.TriedStay.{TheTriedStay};

/// So the row of such a branch, where its node keeps one, knows the decision, or the node has stopped since.
pub fn rows_have_heard()
    ensures { RowsHaveHeard }
{}

/// No branch of a transaction is sealed when its COMMIT is called.
pub fn none_sealed_before()
    ensures { NoneSealedBefore }
{}

/// No law of what is told is about nothing: in the tried run of two nodes B learns the commit that A tells it; where the
/// message is lost it does not.
pub fn the_tried_telling()
    ensures { TheTriedTelling }
{}

/// A live branch below a root that is not working got Prepare of its parent.
pub fn collectors_got_prepare()
    ensures { CollectorsGotPrepare }
{}

/// When nothing is in flight none of its branches collects any more.
pub fn undisturbed_collects_are_over()
    ensures { UndisturbedCollectsAreOver }
{}

/// And its root is live no more.
pub fn undisturbed_roots_are_gone()
    ensures { UndisturbedRootsAreGone }
{}

/// The tried run, computed: B gets Prepare after the COMMIT and is sealed. Where its node stops before the COMMIT it is
/// dropped, and says Abort.
pub fn the_tried_stay()
    ensures { TheTriedStay }
{}
