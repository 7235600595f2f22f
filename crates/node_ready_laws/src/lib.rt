//! What holds of a node between its turns, as far as its code needs it, and that each turn keeps it.
#![tactic(auto)]

ghost use Rattle.node_ready_laws.specs.Rows.{RowsStayOfTables, NoRowsAtFirst};
ghost use Rattle.node_ready_laws.specs.Numbers.{ClocksRiseByOne, OneOpenATurn, SeqsRiseByOne, CallsRiseByOne};
ghost use Rattle.node_ready_laws.specs.Ids.{IdsStay, NoIdsAtFirst, LivesAreFree, NewIdsAreNew};
ghost use Rattle.node_ready_laws.specs.Sound.{RecordsFollow, RowsDoNotMatter};
ghost use Rattle.node_ready_laws.specs.Names.{NamesStay, EmptyNameIsFree};
ghost use Rattle.node_ready_laws.specs.Gives.{ChildrenAreFew, NextCallsAreWithin};
ghost use Rattle.node_ready_laws.specs.Ready.{TurnsStayReady, StartsAreReady, NumbersStayWithin};

/// Between turns the tables of a node are whole, the rows under a table's name are rows of it, with a cell for each column
/// and the key in the key column, and what branches have changed, live or in doubt, are changes of tables that are there.
/// So it is of a node that has just been made, and a turn whose call makes no table, or a whole one, leaves it so.
pub fn rows_stay_of_tables()
    ensures made { NoRowsAtFirst }
    ensures turns { RowsStayOfTables }
{}

/// In one turn the clock of a node rises by one at most, once it has met the SCNs that the input brings; the node answers one
/// Open more at most, so it gives out one session number; and call numbers rise by one at most. So these numbers stay below
/// the number of happenings.
pub fn numbers_rise_by_one()
    ensures clock { ClocksRiseByOne }
    ensures opens { OneOpenATurn }
    ensures seqs { SeqsRiseByOne }
    ensures calls { CallsRiseByOne }
{}

/// The id of each branch that a node deals with was given out by it: before its last start, to a transaction of a session, or
/// to a branch that was opened over a link. Between turns no live branch is kept or in doubt. So it is of a node that has just
/// been made, and each turn leaves it so, whatever comes: the ids that a node gives out next are of none of its branches.
pub fn ids_stay_apart()
    ensures made { NoIdsAtFirst }
    ensures turns { IdsStay }
    ensures free { LivesAreFree }
    ensures new { NewIdsAreNew }
{}

/// The record that a turn writes may stand next: its names are new, its changes are of rows of tables that are there, and a
/// branch that becomes in doubt is not in doubt already. That does not hang on the rows of kept branches, where a node notes
/// Acks that no record has.
pub fn records_follow()
    ensures turns { RecordsFollow }
    ensures acks { RowsDoNotMatter }
{}

/// A node is ready after a start, if each of its records may stand next after those before it.
pub fn starts_are_ready()
    ensures { StartsAreReady }
{}

/// A turn of a ready node over an input that it expects leaves it ready, and the turn's record may stand next. Where its
/// numbers and the SCNs that the input brings are at most n, its numbers are at most n + 1 after the turn.
pub fn turns_stay_ready()
    ensures ready { TurnsStayReady }
    ensures numbers { NumbersStayWithin }
{}

/// Between turns each link and each synonym of a node has a name, and names what has one; a turn whose call makes no such, or
/// one with names, leaves that so. No table or synonym has the empty name, by which statements without a table go.
pub fn names_stay()
    ensures turns { NamesStay }
    ensures empty { EmptyNameIsFree }
{}

/// A ready node gives its code numbers that fit: a live branch has few children, and tells of few branches, and the next call
/// number of an edge is at most one more than the greatest so far.
pub fn ready_nodes_have_few()
    ensures children { ChildrenAreFew }
    ensures calls { NextCallsAreWithin }
{}
