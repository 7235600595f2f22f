//! What the theorem says of every run, in one place: that the commit point site decides and covers its tree, that answers
//! are meant and where they come from, who may write or say what, what is told as done, and what an undisturbed COMMIT is.
//! Each is proved in a crate of laws above.
#![tactic(auto)]

ghost use Rattle.run_claims.specs.TriedClaims.{TheTriedClaims};

/// The claims are as meant where a slip would be small: COMMIT has no record of its own, COMMIT FORCE has; what a branch
/// learned is no statement's record; a forced commit takes a later SCN than its node has seen; and a command in which a
/// message is lost or a node stops does not go well.
pub fn the_tried_claims()
    ensures { TheTriedClaims }
{}
