//! What a node keeps in memory: its live branches, the calls of these, and the sessions of its clients. Each is exact by
//! the definitions that the rules of a node use.
#![tactic(auto)]

mod kept_calls;
mod live_changes;
mod lives;
mod sessions;
mod work_changes;
mod works;

pub use lives::Lives;
pub use sessions::{Sessions, fresh_session};
pub use work_changes::no_work;
pub use works::Works;
