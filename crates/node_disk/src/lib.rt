//! A node and its disk.
//!
//! Nodes exchange bytes. `Node::turn` reads what comes, does what the rules say, and puts the turn's record on the disk before it
//! tells anything of the turn. `Node::start` makes a node again from whatever a crash has left of its disk, and `Node::make` makes
//! one on an empty disk. The points of crash-test comments cut a turn before its record is written, or after.
#![tactic(auto)]

mod arming;
mod deciding;
mod effects;
mod err;
mod finished;
mod incoming;
mod laws;
mod mailing;
mod making;
mod node;
mod starting;
mod writing;

pub use effects::{DurableTurn, Ends, Mailed, Sent};
pub use err::{CutAt, CutTurn, MakeErr, MakeWhy, TurnErr};
pub use finished::Finished;
pub use incoming::Incoming;
pub use laws::turns_store_their_records;
pub use node::Node;
