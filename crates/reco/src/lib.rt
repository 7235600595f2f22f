//! Recovery: what the branches of a node ask and tell when it recovers, and what a node answers a branch that asks.
//! (Database Administrator's Guide, "Distributed Transactions Concepts": the recoverer process RECO.)
#![tactic(auto)]

mod answers;
mod asking;
mod post;
mod recovery;
mod told;

pub use answers::{kept_told, live_told};
pub use asking::{Asking, Askings};
pub use post::{Post, Posts};
pub use recovery::asks;
pub use told::Told;
