//! What one statement does at the node of its table.
//!
//! What it does is a function of what it meets there: the rows that its branch sees, the locks of the node, and the space that
//! is left to the branch. It is refused, or gives rows and locks keys, or makes changes and locks keys; the causes of a refusal
//! are tested in their order. The laws say what this is over the store of a node, which tests the space of changes itself.
//!
//! Beside these definitions stand the calls of a run that need no rows: who holds keys, taking them, and the refusals that name
//! a holder or the space. A call fails where memory runs out.
#![tactic(auto)]

pub mod holders;
pub mod laws;
mod ran;
pub mod refusal;

pub use ran::StmtOutcome;
