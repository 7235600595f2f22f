//! Laws of tables, keys and rows in every lawful run: who holds a key, when a key may be changed, in which order commits come,
//! and what the book tells of the rows of a node.
#![tactic(auto)]

ghost use Rattle.run_base_laws.specs.NodeLaws.{HoldersAreThere};
ghost use Rattle.run_key_laws.specs.TriedRows.{TheTriedRows};

/// Each lock of a node is held by a branch that is live there, or in doubt.
pub fn holders_are_there()
    ensures { HoldersAreThere }
{}

/// No law of rows and keys is about nothing: the nodes of the tried run end with the rows that its book tells, and their branches
/// hold their keys before.
pub fn the_tried_rows()
    ensures { TheTriedRows }
{}
