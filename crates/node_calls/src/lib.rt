//! The calls of clients, and statements on their way through the session tree, at a node: each handler does exactly what the
//! rules of its name say of what the node keeps.
//!
//! - Statements of a client: `statement_call`, `set_read_only`, `savepoint_call`, `back_call`, `rollback_by`, `advise`,
//!   `create_table`, `create_link`, `create_synonym`, `set_recovery`, `set_strength`, `refuse_text`; `leave` where a transaction ends
//!   at once, and `statement_given_up` where a statement waits no more.
//! - Messages: `on_open`, `opened_turn`, `exec_turn`, `reply_turn`.
//! - A law: `ready_nodes_take_calls`, by which a ready node meets the conditions of all these.
//!
//! A live branch is looked up by its id, changed where it stands, and never copied. A handler changes what the node keeps, and
//! tells what the turn does beside that. It fails where memory runs out, and then nothing is promised of what the node keeps
//! but its place.
#![tactic(auto)]

mod advising;
mod answering;
mod beginning;
mod calling;
mod defining;
mod ending;
mod executing;
mod giving_up;
mod going_back;
mod laws;
mod looking_back;
mod marking;
mod opened;
mod opening;
mod read_only;
mod replied;
mod routing;
mod turns;

pub use advising::advise;
pub use beginning::statement_call;
pub use defining::{
    create_link, create_synonym, create_table, refuse_text, set_recovery, set_strength,
};
pub use ending::{leave, rollback_by};
pub use giving_up::statement_given_up;
pub use laws::ready_nodes_take_calls;
pub use marking::{back_call, savepoint_call};
pub use opening::on_open;
pub use read_only::set_read_only;
pub use turns::{exec_turn, opened_turn, reply_turn};
