//! Rows at an SCN, by the book.
//!
//! A node keeps its newest commits, each with the rows from before it, and a READ ONLY transaction reads behind those above its
//! SCN. In every lawful run it finds there, at each key that is not in doubt, the row that the commits of the book up to the SCN
//! leave: those commits are the same, in the same order at each key, and what was forgotten is not above the SCN
//! (`specs/VersionLaws.antt`).
#![tactic(auto)]

ghost use Rattle.version_laws.specs.VersionLaws.{VersionsAgree};

/// At each node of a lawful run, at each key that is not in doubt, the row at an SCN that is not too old is the one that the
/// commits of the book up to this SCN leave.
pub fn versions_agree()
    ensures { VersionsAgree }
{}
