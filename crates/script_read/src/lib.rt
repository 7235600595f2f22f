//! The commands of a script, and how a script is read.
//!
//! A script is cut at each `;` outside quotes and comments, and what stands before it, without its comments, is read as a
//! command by the grammar of `specs/Forms.antt`: one line a form, in the words of its manual. A call of a client stands
//! apart, since after its colon there is a text of its own, which is read as a statement.
//!
//! The first bad command is told by its line and by the first of seven reasons that holds (`Why`). `specs/Asked.antt`
//! says so as a function of the bytes, and `read_script` gives exactly that. Beside it `specs/Spelled.antt` says which
//! bytes are which script, as a relation that knows nothing of how the commands are found; the two agree
//! (`scripts_are_spelled`), and no bytes are two scripts (`one_script`).
//!
//! What runs commands does not depend on how they are read: `Command` is plain data.
#![tactic(auto)]

mod before;
mod command;
mod cut;
mod forms;
mod hex;
mod judging;
mod laws;
mod meanings;
mod nodes;
mod part;
mod reading;
mod script;
mod settings;
mod why;
mod words;

pub use command::{Command, Commands, How};
pub use laws::{commands_are_spelled, one_script, scripts_are_spelled};
pub use script::read_script;
pub use why::{ScriptErr, Why};
