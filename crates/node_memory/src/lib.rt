//! What a node keeps in memory: all that its records give, which a start makes again from the disk, and all that a stop loses.
//!
//! - Questions: `live_at`, `work_at`, `branch_at`, `kept_row_at`, `status_of`. They lend what stands in memory. All live
//!   branches and all rows, in order, are `lives.as_slice()` and `kept.as_slice()`: recovery and the views go over these.
//! - Changes without a record: `raise`, `drop_branch`, `hear_ack`.
//! - Records: `take_in` for any record; `seal` and `decide` for that of a live branch, which leaves.
//! - A start: `rebuild`.
//!
//! Each is exact by the rules' definition of its name, over the rules' `NodeState` as `kept_in` sees it. A node's place and its undo
//! extents never change. A call fails where memory runs out, and for no other reason; a node whose call has failed is used no
//! more, except where the call says that nothing has changed.
#![tactic(auto)]

mod acks;
mod branches;
mod deciding;
mod doubts;
mod leaving;
mod memory;
mod parts;
mod records;
mod sealing;
mod start;
mod versions;

pub use branches::{BranchStatus, LiveBranch};
pub use memory::Memory;
pub use versions::Versions;
