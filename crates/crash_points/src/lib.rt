//! Crash-test comments: which comment is which test, and at which place of a turn a test stops its node.
//! (Database Administrator's Guide, "Managing Distributed Transactions": simulating distributed transaction failure.)
#![tactic(auto)]

mod comment;
mod place;
mod points;

pub use comment::point_of;
pub use place::TurnPlace;
pub use points::reached;
