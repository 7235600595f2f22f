//! In every lawful run nodes keep their undo, and a start has the undo extents that it needs.
#![tactic(auto)]

ghost use Rattle.run_undo_laws.specs.UndoRuns.{NodesKeepUndo, DisksFitDoubts, DisksNeedNoMore, StartsAlwaysFit, EveryRunKeepsUndo};

/// In every lawful run each node that is up keeps its undo: that of each branch, live or in doubt, is the rows from before its changes,
/// whose keys it holds, and all undo fits the node's extents. Each record on its disk fits beside the branches that were in doubt
/// before it. ("Managing Undo".)
pub fn nodes_keep_undo()
    ensures nodes { NodesKeepUndo }
    ensures disks { DisksFitDoubts }
{}

/// No start lacks undo extents: the branches in doubt by the records on a disk take no more of them than the node used when it was last
/// up, and never more than the node has. A start uses just these. ("Managing Undo".)
pub fn starts_always_fit()
    ensures disks { DisksNeedNoMore }
    ensures starts { StartsAlwaysFit }
{}

/// The undo of a run, at each of its moments: what each node that is up keeps of it, and the space that it takes, also over stops and
/// starts. ("Managing Undo".)
pub fn every_run_keeps_undo()
    ensures { EveryRunKeepsUndo }
{}
