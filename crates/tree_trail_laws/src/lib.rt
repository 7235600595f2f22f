//! The branch history, which follows from the happenings of a run, agrees with what nodes keep of their branches.
//!
//! run_claims speaks of the commit point site, and of what a turn may write and say, by the branch history: who the children
//! of a branch are, what it has changed, who has voted. In every lawful run that is what nodes keep: of live
//! branches below roots (`specs/ChildLaws.antt`, `specs/LowerLaws.antt`); of roots, where it is so of changes
//! (`specs/TopLaws.antt`), and of changes, where it is so of roots; so of all (`specs/OwnLaws.antt`). Where it is so of all
//! (`specs/SeenLaws.antt`), each decision is made by the site of its tree and covers it.
#![tactic(auto)]

ghost use Rattle.tree_trail_laws.specs.ChildLaws.{ChildrenAreTraced};
ghost use Rattle.tree_trail_laws.specs.LowerLaws.{LowerAreTraced};
ghost use Rattle.tree_trail_laws.specs.LeaveLaws.{LowerLeaveAsTraced};
ghost use Rattle.tree_trail_laws.specs.OwnLaws.{DecisionsCover};
ghost use Rattle.run_claims.specs.Headline.{EveryRunIsMeant, EverySiteDecides};
ghost use Rattle.tree_trail_laws.specs.TriedTrail.{TheTriedTrail};
ghost use Rattle.tree_trail_laws.specs.TriedOwns.{TheTriedOwns};

/// By the branch history a live branch below a root began, with the parent and the children that its node keeps of it.
pub fn children_are_traced()
    ensures { ChildrenAreTraced }
{}

/// The branch history of a live branch below a root agrees with what its node keeps of it: that it is live, its parent and
/// its children, whether its collect began, and which of its children answered.
pub fn lower_are_traced()
    ensures { LowerAreTraced }
{}

/// So a branch below a root seals on the last answer of its children, on Prepare where it has none, or on CommitPoint from
/// its parent, and decides on CommitPoint, by the branch history.
pub fn lower_leave_as_traced()
    ensures { LowerLeaveAsTraced }
{}

/// So in every lawful run each decision is made by the commit point site of its session tree: the branch at which the walk
/// by commit point strengths ended when the COMMIT was accepted.
pub fn every_site_decides()
    ensures { EverySiteDecides }
{}

/// Every other branch of that tree with changes on it or below it is sealed before, and seals and decisions have the changes
/// of their branches.
pub fn decisions_cover()
    ensures { DecisionsCover }
{}

/// In every lawful run each answer of a run of a statement is meant: a query's rows are what it means over the rows that the
/// book leaves at its node, with the changes of its own branch, and it examined no key in doubt; a change counts the rows
/// that it means.
pub fn every_run_is_meant()
    ensures { EveryRunIsMeant }
{}

/// The laws of the branch history are not about nothing: in the tried run of two nodes A is the commit point site by it, and
/// B its child, and sealed.
pub fn the_tried_trail()
    ensures { TheTriedTrail }
{}

/// The laws of changes are not about nothing: in the tried run both branches have changed, by the branch history, the rows
/// that their nodes keep as changed, and an INSERT is a run that means its answer.
pub fn the_tried_owns()
    ensures { TheTriedOwns }
{}
