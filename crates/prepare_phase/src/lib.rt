//! The prepare phase at a live branch: what it does when COMMIT or Prepare comes and when its children answer, what it
//! tells its children, and what its record names.
//! (Database Administrator's Guide, "Distributed Transactions Concepts": prepare phase.)
#![tactic(auto)]

mod asked;
mod phase;
mod prepares;
mod records;

pub use asked::{Asked, AskedChildren};
pub use phase::{on_answer, on_prepare};
pub use prepares::asked_by;
pub use records::{decided_of, is_alone, sealed_of, site_neighbors};
