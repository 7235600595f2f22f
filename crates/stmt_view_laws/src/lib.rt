//! The meaning of a statement depends on the rows that it examines alone.
//!
//! A node holds back the changes of branches in doubt, so that its rows may differ from those that the book's committed
//! transactions leave, at the keys of such changes. Each of these keys is locked, and a statement that examines one of them is
//! refused. So what a statement does over the node's rows is what it means over the book's.
//!
//! Nothing here knows a node or a book: the laws are of any two views of a table (`specs/Views.antt`).
#![tactic(auto)]

ghost use Rattle.stmt_view_laws.specs.RunLaws.{RunsDoAsMeant, RunsMeanAlike};
ghost use Rattle.stmt_view_laws.specs.TriedViews.{TheTriedViews};
ghost use Rattle.stmt_view_laws.specs.ViewLaws.{AvoidsAlike, ChangesKeepAgreement, ChangesKeepOrder, EitherSeesAlike, ExaminesAlike, MeansAlike, MeantAlike, WritesAlike};

/// Where two views of a table agree at each key but some, and a statement examines none of these over one of the views, it is
/// the same over both: it means the same, writes the same keys and examines the same, none of those among them. The keys at which
/// the views differ are locked; for a statement that fixes no key examines each key with a row and each locked key.
pub fn statements_mean_alike()
    ensures means { MeansAlike }
    ensures meant { MeantAlike }
    ensures writes { WritesAlike }
    ensures examines { ExaminesAlike }
    ensures avoids { AvoidsAlike }
    ensures either { EitherSeesAlike }
{}

/// The same changes leave rows that agree where those before agree, and leave them in the order of their keys.
pub fn changes_keep_views()
    ensures agreement { ChangesKeepAgreement }
    ensures order { ChangesKeepOrder }
{}

/// A run that is not refused reads or writes what its statement means over the view that it saw, and examined no key that a
/// branch in doubt holds. Over each view that agrees with this one but at such keys the statement means the same.
pub fn runs_do_as_meant()
    ensures meant { RunsDoAsMeant }
    ensures alike { RunsMeanAlike }
{}

/// No law is about nothing: with a branch in doubt that inserts a row at 2 and updates the one at 3, a node gives the row at
/// 1, which is the same with and without these changes, and refuses to count the rows.
pub fn the_tried_views()
    ensures { TheTriedViews }
{}
