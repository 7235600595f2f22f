//! The rules of a node: what a statement means, what a node keeps from turn to turn, and what one turn of it answers,
//! writes, sends and leaves. They stand as definitions (`specs/`), over the plain data that is declared here. The code of
//! a node is proved to do exactly this, and the laws of a run are proved of it.
#![tactic(auto)]

mod session;
mod work;

ghost use Rattle.node_rules.specs.TriedRules.{TheTriedRules};

pub use session::{Ended, Finished, PendingCall, Session, Sessions};
pub use work::{Errand, Going, Waits, Work, Works};

/// A branch that goes back keeps what its remaining statements changed and locked, a READ ONLY branch reads the rows from before
/// a commit above its SCN, and an image has the hidden rows.
pub fn the_tried_rules()
    ensures { TheTriedRules }
{}
