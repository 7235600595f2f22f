//! Crash points: which places of a turn a branch passes before its record stands and after, and whether a crash-test comment
//! stops the node there.
//! (Database Administrator's Guide, "Managing Distributed Transactions": simulating distributed transaction failure.)
#![tactic(auto)]

mod laws;
mod looking;
mod passing;
mod places;
mod point;

pub use laws::turns_are_of_their_branch;
pub use looking::Ahead;
pub use passing::passed;
pub use places::Passes;
pub use point::{Point, Side, reaches};
