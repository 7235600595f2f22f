//! One turn of a node, in memory: whatever comes to it, `turn` does exactly what the rules say.
//!
//! It knows no disk. The record of a turn is part of what the node keeps at once; who calls `turn` puts the record on the disk
//! before anything of the turn is told. The handlers stand in `node_calls` and `node_commit`; here are the one that each input
//! comes to, and what a handler needs of the node, which a node that is ready for its next turn has.
#![tactic(auto)]

mod able;
mod calls;
mod checkpoints;
mod committing;
mod giving_up;
mod laws;
mod messages;
mod recovery;
mod served;
mod turns;

pub use laws::refused_calls_leave_all;
pub use served::StampedTurn;
pub use turns::turn;
