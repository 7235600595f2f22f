//! The walk of CommitPoint down to the commit point site, and what an undisturbed COMMIT has come to by it.
//!
//! CommitPoint goes to a branch that said Ready and has a weight, which seals or decides when it comes; and a branch that becomes
//! sealed on the walk passes it on (`specs/PointLaws.antt`). A root leaves in a turn for a reason (`specs/RootLaws.antt`). So where
//! nothing disturbs a COMMIT, and no branch below its root is dropped, no branch stays Ready, each sealed branch has a sealed
//! neighbour or the site on its way, and the site decides, or nobody had changes (`specs/EndLaws.antt`).
#![tactic(auto)]

ghost use Rattle.commit_point_laws.specs.TriedPoint.{TheTriedPoint};
ghost use Rattle.commit_point_laws.specs.EndLaws.{UndisturbedTowardsLeave, UndisturbedWalksEnd, UndisturbedAskedLeave};

/// And each of its sealed branches has on its way to the commit point site one that is sealed too, or one that has decided.
pub fn undisturbed_towards_leave()
    ensures { UndisturbedTowardsLeave }
{}

/// So its site has decided, or its root is gone and each other branch that was asked is gone without changes.
pub fn undisturbed_walks_end()
    ensures { UndisturbedWalksEnd }
{}

/// And each branch of it that was asked to prepare is live no more.
pub fn undisturbed_asked_leave()
    ensures { UndisturbedAskedLeave }
{}

/// The walk of CommitPoint is about something: in a run of three nodes A passes it on to C, which decides, and the COMMIT of
/// that run is undisturbed.
pub fn the_tried_point()
    ensures { TheTriedPoint }
{}
