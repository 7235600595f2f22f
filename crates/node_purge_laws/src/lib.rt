//! A purge hides a row and changes nothing else: whatever comes, a purge apart, the node does what it would have done without it
//! (`specs/PurgeLaws.antt`). So in a run no turn but a purge hangs on what was purged (`specs/PurgeRunLaws.antt`), and a run
//! without its purges is a run too, with the same book and the same answers to all other calls (`specs/LeftOutLaws.antt`). Only
//! the image that a checkpoint writes says which rows are hidden; all else in it is the same.
#![tactic(auto)]

ghost use Rattle.node_purge_laws.specs.PurgeLaws.{PurgesChangeNothingElse, PurgesHideAlone, PurgesChangeNothingShown};
ghost use Rattle.node_purge_laws.specs.LeftOutLaws.{EveryPurgeChangesNothing};
ghost use Rattle.node_purge_laws.specs.TriedPurge.{TheTriedPurge};

/// Two nodes that differ in which kept rows are hidden alone write, send and answer the same, and differ so still: about each
/// message, each call of a client, a call that is given up, RECO, and a checkpoint, whose images differ in the hidden rows alone.
/// Only another purge finds what was hidden.
pub fn purges_change_nothing_else()
    ensures { PurgesChangeNothingElse }
{}

/// A purge leaves such a node.
pub fn purges_hide_alone()
    ensures { PurgesHideAlone }
{}

/// So after a purge a node shows what it would have shown without it, whatever messages come.
pub fn purges_change_nothing_shown()
    ensures { PurgesChangeNothingShown }
{}

/// In every lawful run a purge hides a row and sends nothing, and what any other turn writes, sends and answers is what it would be
/// if other rows of its node were hidden, or none. So take all purges out of a run: what is left is a lawful run, each turn with
/// the record and the messages that it had, the book is the same, and the same calls end with the same answers. Images alone say
/// of other rows that they are hidden; a run without an image is the same word for word.
/// (PL/SQL Packages and Types Reference: DBMS_TRANSACTION, PURGE_MIXED, PURGE_LOST_DB_ENTRY.)
pub fn every_purge_changes_nothing()
    ensures { EveryPurgeChangesNothing }
{}

/// The laws are not about nothing: purged, B's mixed row is hidden, and B tells the decision as before.
pub fn the_tried_purge()
    ensures { TheTriedPurge }
{}
