//! One statement over the store of a node.
//!
//! What a statement meets there, and what it does, is said by stmt_run. Here it is run over the rows of all branches in one
//! store: a statement that fixes a key looks at this key alone, the store itself tests the space of the changes, and what they
//! leave is one more set of the branch. A call fails where memory runs out.
#![tactic(auto)]

mod deciding;
mod keeping;
mod looking_back;
mod past;
mod running;
mod sight;
mod site;
mod written;

pub use looking_back::read_past;
pub use past::change_all;
pub use running::run;
pub use written::{Ran, Written};
