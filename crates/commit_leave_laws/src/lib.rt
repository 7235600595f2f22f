//! The branches of an undisturbed COMMIT's transaction all take part in it, and the COMMIT is answered.
//!
//! A branch opens each of its edges once, and a node begins one branch for it as long as it is not stopped; so no branch is a
//! stray that its parent does not know, each was asked to prepare, and none is live when nothing is in flight any more
//! (`specs/StrayLaws.antt`). While the COMMIT is pending its root is live, or has a row that has not forgotten it; so the COMMIT has
//! its answer, Commit complete, once neither is there (`specs/CallLaws.antt`). That no branch below the root was dropped, that
//! none said Abort, that none is Ready and that no row is left are premises here.
#![tactic(auto)]

ghost use Rattle.commit_leave_laws.specs.StrayLaws.{OpensAreSentOnce, UndisturbedBranchesAreAsked};
ghost use Rattle.commit_leave_laws.specs.TriedStray.{TheTriedStray};

/// In every lawful run a branch sent the Open of each of its edges once at most.
pub fn opens_are_sent_once()
    ensures { OpensAreSentOnce }
{}

/// Each branch of an undisturbed COMMIT's transaction was asked to prepare by its parent, where none below the root was dropped.
pub fn undisturbed_branches_are_asked()
    ensures { UndisturbedBranchesAreAsked }
{}

/// None of this is about nothing: in the tried run of two nodes one Open is sent, B is asked, and A's COMMIT waits with A and
/// then with its row; where B's node starts again and the Open comes again, a second branch begins over the same edge.
pub fn the_tried_stray()
    ensures { TheTriedStray }
{}
