//! What a run is: which happening may come next, which one is due, what the happenings so far leave, what is told of them,
//! and what happenings say of branches. Code is proved against these definitions, and so are the laws.
#![tactic(auto)]

ghost use Rattle.run_rules.specs.TriedStrength.{TheTriedStrength};

/// The strength that counts for a branch is the one that was set when it began.
pub fn the_tried_strength()
    ensures { TheTriedStrength }
{}
