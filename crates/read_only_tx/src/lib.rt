//! Rows at an SCN: the newest commits of a node, with the rows from before each, from which a READ ONLY transaction reads
//! the rows as they were at its SCN. `specs/Versions.antt` has the definitions.
#![tactic(auto)]

ghost use Rattle.read_only_tx.specs.TriedVersions.{TheTriedVersions};

/// Of 65 commits the 64 newest are kept; a transaction whose SCN is below that of a commit reads the row from before it.
pub fn the_tried_versions()
    ensures { TheTriedVersions }
{}
