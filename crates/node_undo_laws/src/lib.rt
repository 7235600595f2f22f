//! What a node keeps of undo between its turns, and that each turn and each start keeps it.
//!
//! The undo of a branch is the rows from before its changes. While the branch is live it is kept statement by statement, over what the
//! branch saw; once the branch is in doubt it is that of all its changes over the committed rows. Both are the same, since no other
//! branch changes the keys that a branch holds: so a branch that seals keeps its undo as it is, and a start needs no more undo extents
//! than the node had before its stop.
#![tactic(auto)]

ghost use Rattle.node_undo_laws.specs.Laws.{TurnsKeepUndo, RecordsFitDoubts, RecordsNeedNoMore, SealsKeepUndo, SealsHaveRoom, AcksDoNotMatter, NoUndoAtFirst, StartsHaveUndo};
ghost use Rattle.node_undo_laws.specs.TriedUndo.{TheTriedUndo};

/// Between turns each live branch and each branch in doubt holds the keys of its changes, its undo is the rows from before these changes,
/// and all undo fits the extents of the node. So it is of a node that has just been made, and a turn of a ready node leaves it so.
/// ("Managing Undo".)
pub fn turns_keep_undo()
    ensures made { NoUndoAtFirst }
    ensures turns { TurnsKeepUndo }
{}

/// The record that a turn writes changes no key that a branch in doubt holds, and after it the undo of the branches in doubt fits the
/// extents of the node: it takes no more than all undo took before the turn. That does not hang on the rows of kept branches, where a
/// node notes Acks that no record has.
pub fn records_fit_doubts()
    ensures turns { RecordsFitDoubts }
    ensures space { RecordsNeedNoMore }
    ensures acks { AcksDoNotMatter }
{}

/// A branch that seals keeps its undo: the rows from before its changes over the committed rows are those that were kept of its statements.
/// At a start there is room for the undo of each branch that its record puts in doubt.
pub fn seals_keep_undo()
    ensures turns { SealsKeepUndo }
    ensures starts { SealsHaveRoom }
{}

/// A node has its undo after a start, if each of its records may stand next after those before it.
pub fn starts_have_undo()
    ensures { StartsHaveUndo }
{}

/// No law is about nothing: a node with a live branch that inserts a row and updates it, and with a branch in doubt, keeps its undo.
/// It is the same when the branch in doubt has committed, and when the live branch is sealed.
pub fn the_tried_undo()
    ensures { TheTriedUndo }
{}
