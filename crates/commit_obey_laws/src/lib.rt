//! A decision that comes to a sealed branch from its neighbour on the way to the commit point site is obeyed in that turn.
//!
//! A branch that was not forced writes that it ended with the decision. A forced one writes that it met it, marked as mixed
//! exactly where the forced outcome and the decision differ (`specs/ObeyLaws.antt`).
//!
//! Until then its node keeps its row, and longer: until the branch ends with a rollback, or meets one or forgets. A mixed row
//! stays, whether it is hidden or not (`specs/RowStayLaws.antt`).
#![tactic(auto)]

ghost use Rattle.commit_obey_laws.specs.ObeyLaws.{DecisionsAreObeyed, EveryDecisionIsObeyed};
ghost use Rattle.commit_obey_laws.specs.RowStayLaws.{EverySealedRowStays};
ghost use Rattle.commit_obey_laws.specs.TriedObey.{TheTriedObey};
ghost use Rattle.commit_obey_laws.specs.TriedRowStay.{TheTriedRowStay};

/// In every lawful run each decision that comes from toward to a sealed branch that has learned none is written in that turn.
pub fn decisions_are_obeyed()
    ensures { DecisionsAreObeyed }
{}

/// The same, said of the book: where a decision comes from the side of the site to a sealed branch, and the book does not
/// say yet that the branch met one, the turn writes that it ended with this decision; or, where the book has an outcome that
/// somebody forced, that it met it, and whether the two differ. And a sealed branch's row stays until it ends with a rollback,
/// or forgets, as `every_sealed_row_stays` says.
pub fn every_decision_is_obeyed()
    ensures { EveryDecisionIsObeyed }
{}

/// The law is not about nothing: in the tried run of two nodes B ends with the commit that A tells it, and, forced before, meets it.
pub fn the_tried_obey()
    ensures { TheTriedObey }
{}

/// In every lawful run, at each moment at which its node is up, the node has a row of a sealed branch, hidden or not, until the
/// branch has ended with a rollback, or, unless its outcome is mixed, has met one or has forgotten. From then on it has none.
/// (Database Administrator's Guide, "Managing Distributed Transactions".)
pub fn every_sealed_row_stays()
    ensures { EverySealedRowStays }
{}

/// The law is not about nothing: in the tried run B's row goes when it forgets, and a mixed one stays though it was purged.
pub fn the_tried_row_stay()
    ensures { TheTriedRowStay }
{}
