//! The ids of branches and transactions, their texts, and the clock that numbers commits. Calls fail where memory
//! runs out and for no other reason.
#![tactic(auto)]

mod branch;
mod clock;
mod texts;

pub use branch::BranchId;
pub use clock::Clock;
pub use texts::{
    global_text, hex_digit, local_text, node_name, put_decimal, put_global, put_local,
};
