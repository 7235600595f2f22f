//! What the views of pending transactions show.
//!
//! DBA_2PC_PENDING and DBA_2PC_NEIGHBORS of a node show each branch that by the records on its disk is prepared, committed or
//! forced there, and DBA_2PC_PENDING each live branch that has asked its children to prepare (`specs/BranchRows.antt`), and no
//! other. The advice of such a live branch came with the last Exec that it took, its comment with the COMMIT of its transaction
//! (`specs/GivenColumns.antt`); an Exec brings the advice of its client's session (`specs/AdviceLaws.antt`).
#![tactic(auto)]

ghost use Rattle.view_laws.specs.ViewLaws.{ViewsAreOfBranches};
ghost use Rattle.view_laws.specs.ReportedViews.{ViewsAreReported};
ghost use Rattle.view_laws.specs.TriedViews.{TheTriedViews};

/// In the run of a script SHOW PENDING and SHOW NEIGHBORS of a node that is up print the rows of just those branches, as they
/// stand where the command begins, in the order of their local ids; from then on the lines stand in the report, right behind
/// those of the commands before. A branch has its row from its Sealed record on, and the commit point site from its Decided
/// record on, if it has neighbours; until it ends with a rollback, or, unless it is mixed, forgets or meets a rollback. A purge
/// takes the row out of the views, unless its branch is found mixed after it. State, advice, comment, commit SCN, MIXED and
/// neighbours are those that the records say. The row of a branch that is collecting has the root of its transaction, the advice
/// of the last Exec that the branch took, none at a root, and the comment of the transaction's COMMIT; and each Exec brings the
/// advice that the session had set, along all local coordinators.
pub fn views_are_of_branches()
    ensures { ViewsAreOfBranches }
{}

/// In the report of a run what a view prints stands right behind the lines of the commands before, each line with the number of
/// its command in front. Where memory ran out, the report may end before it.
pub fn views_are_reported()
    ensures { ViewsAreReported }
{}

/// The law is not about nothing: in the tried run of two nodes A is collecting, with the comment of its COMMIT, and then
/// committed, B takes an advice, is prepared, forced, mixed and purged, and each has the row that these say, or none.
pub fn the_tried_views()
    ensures { TheTriedViews }
{}
