//! The locks on the rows of a node: which branch holds which key of which table.
//!
//! Contracts see the locks as a list in the order in which they were taken. Two locks are never on the same key. A call that
//! returns an `AllocError` fails where memory runs out.
//!
//! Each lock has a number, which rises in the order of taking. The locks are kept by their numbers, the number of a lock is
//! found by its key, and each branch has the numbers of its own, so that it gives back its locks without a walk over others'.
#![tactic(auto)]

mod by_branch;
mod held_key;
mod kept_key;
mod lock_err;
mod lock_key;
mod locks;
mod numbered_locks;
mod numbers;

pub use lock_err::LockErr;
pub use locks::{Keys, Locks};
