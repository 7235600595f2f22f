//! What comes to a node, as plain data: messages between branches, calls of clients, calls that are given up, RECO
//! and a checkpoint.
#![tactic(auto)]

mod input;
mod kind;
mod msg;
mod task;

pub use input::Input;
pub use kind::{Kind, KindName};
pub use msg::{Msg, Msgs};
pub use task::Task;
