//! The script of a number: a large input for the model. Over four nodes with a table and database links it has 500 transactions,
//! each of which inserts a row at its own node and a row at another one, and then commits. Which nodes, and which values, is drawn
//! from the number. In every tenth transaction the message Committed to the branch with the smaller node number is lost, so that
//! branch is in doubt until its node recovers.
//!
//! `specs/Script.antt` has the script line by line, each with its text and the command that it is. That the texts are read as
//! those commands, for every number, is a theorem (`made_scripts_are_read`): so no made script is a bad one. `specs/Summary.antt` has
//! what is printed of its run.
#![tactic(auto)]

mod counting;
mod laws;
mod lines;
mod output;
mod script;
mod transaction;

pub use laws::made_scripts_are_read;
pub use output::summary;
pub use script::{made_commands, make_script};
pub use transaction::Transaction;
