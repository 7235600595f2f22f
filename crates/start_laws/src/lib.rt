//! Whatever was cut, a node comes up with exactly what the book says.
//!
//! A start builds a node again from the records on its disk. After each start of a lawful run the node has, at each key that is
//! not in doubt, the row that the committed transactions of the book leave there; it locks the keys that branches in doubt have
//! changed, each for its branch, and no other; its catalog and its kept rows are those of its records; and nobody is live there
//! (`specs/StartLaws.antt`).
#![tactic(auto)]

ghost use Rattle.start_laws.specs.StartLaws.{EveryStartRestores};
ghost use Rattle.start_laws.specs.TriedStart.{TheTriedStart};

/// After each start of a lawful run the node is up, and keeps what book and records say, and nothing else.
pub fn every_start_restores()
    ensures { EveryStartRestores }
{}

/// The law is not about nothing: in the tried run B starts once with its branch in doubt, and once after the commit.
pub fn the_tried_start()
    ensures { TheTriedStart }
{}
