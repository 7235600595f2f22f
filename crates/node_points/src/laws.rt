//! Laws alone.
ghost use Rattle.node_points.specs.Passing.{TurnsAreOfTheirBranch};

/// A turn passes places of the branch that its input is about, and of no other.
pub fn turns_are_of_their_branch()
    ensures { TurnsAreOfTheirBranch }
{}
