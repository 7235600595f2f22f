//! Laws of the book and of the records of every lawful run.
//!
//! The book and the disks have the same records in the same order (`specs/DiskLaws.antt`), and in the book a branch is sealed before
//! its transaction is decided (`specs/SealLaws.antt`). From this and from the order in which branches hold a key at their node follows
//! the law of commit SCNs. Records are due to what came (`specs/WriteLaws.antt`), where that can be said without what their branches did before.
//! Seals and decisions are so by what the branch's node keeps of it (`specs/LeaveLaws.antt`); what the happenings tell of its life
//! is left to be shown (`specs/LifeLaws.antt`).
//!
//! What the nodes of a lawful run store, by its book.
//!
//! The book leaves rows at a node by the decisions of transactions, in their order in the book, while a node puts the
//! changes of a branch into its rows when the branch learns its decision. At each key that is not in doubt both leave the
//! same row: locks kept the transactions that changed it in order (`specs/RowLaws.antt`).
#![tactic(auto)]

ghost use Rattle.book_laws.specs.TriedBook.{TheTriedBook};
ghost use Rattle.book_laws.specs.RowLaws.{OrdersAgree};
ghost use Rattle.book_laws.specs.TriedBookRows.{TheTriedBookRows};
ghost use Rattle.book_laws.specs.TriedForcedRows.{TheTriedForcedRows};
ghost use Rattle.run_claims.specs.Headline.{EveryScnIsLater};

/// The law of commit SCNs holds of the book of every lawful run: the SCN of a decision exceeds those of the seals of its transaction, and
/// of two decisions whose branches changed one key at a node, and were never forced, the later in the book has the greater SCN.
pub fn every_scn_is_later()
    ensures { EveryScnIsLater }
{}

/// The law of commit SCNs is not about nothing: in a run of two transactions both change one key, and the second has the greater SCN.
pub fn the_tried_book()
    ensures { TheTriedBook }
{}

/// At each key that is not in doubt the commits of a node leave the same row in the order in which its branches learned them
/// as in the order of the decisions: locks kept those that changed the key in order.
pub fn orders_agree()
    ensures { OrdersAgree }
{}

/// These laws are not about nothing: in a run the book has a row at a node from the decision on, which the node itself has only
/// when its branch learns the decision; until then the key is in doubt by both.
pub fn the_tried_book_rows()
    ensures { TheTriedBookRows }
{}

/// Where a branch is committed by force and learns a rollback later, the mixed outcome leaves its row at the node, as by the
/// book.
pub fn the_tried_forced_rows()
    ensures { TheTriedForcedRows }
{}
