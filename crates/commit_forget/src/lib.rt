//! The commit phase and the forget phase: what a branch does about CommitPoint, a decision, an Ack and Forgotten.
//! Decisions come from the neighbour toward the commit point site and go to those beyond, from where Acks come back.
//! (Database Administrator's Guide, "Distributed Transactions Concepts": commit phase and forget phase.)
#![tactic(auto)]

mod commit_point;
mod neighbors;
mod next;
mod rows;

pub use commit_point::on_commit_point;
pub use neighbors::{all_acked, beyond_of, is_beyond, is_neighbor};
pub use next::{Beyond, Beyonds, Next};
pub use rows::{is_asked_again, is_mixed, knows_commit, on_ack, on_decision, on_forgotten};
