//! The handlers of a node for the prepare, commit and forget phases, for recovery, and for forced outcomes and purges: what
//! a turn changes of what the node keeps, and what it writes, says and answers. Each is exact by the rules.
//!
//! A branch is named by its id and looked up here. A handler changes nothing where the branch is not there. Each fails where
//! memory runs out, and for no other reason; the node may not be used then.
#![tactic(auto)]

mod committing;
mod deciding;
mod forcing;
mod giving_up;
mod leaving;
mod looking;
mod preparing;
mod recovery;
mod sealing;
mod session_ends;
mod turns;

pub use forcing::{commit_force, purge, rollback_force};
pub use giving_up::commit_given_up;
pub use preparing::collects;
pub use turns::{
    ack_turn, answer_turn, ask_turn, commit_point_turn, committed_turn, forgotten_turn,
    prepare_turn, rollback_turn, rolled_back_turn,
};
