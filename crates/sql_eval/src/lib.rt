//! What one statement means over the rows of one table.
//!
//! The keys that a statement examines and writes, the rows that it gives and the changes that it makes are functions of the
//! rows of that table alone. Locks, nodes and transactions are not known here. Each function computes the definition of its
//! name in specs/, and fails where memory runs out.
//!
//! The meanings are those of the SQL Language Reference ("Nulls", "Comparison Conditions", "Arithmetic Operators", "SUM",
//! "COUNT", "INSERT", "UPDATE", "DELETE", "SELECT"), over the two types NUMBER, here of 64 bits, and VARCHAR2.
#![tactic(auto)]

mod condition;
mod insert;
mod keyed;
mod keys;
pub mod laws;
mod meaning;
mod meant;
mod query;
mod rows;
mod sql_err;
mod update;

pub use keyed::{Keyed, KeyedRef};
pub use keys::{examined, fixed_key};
pub use meaning::outcome_over;
pub use meant::{Meant, StmtMeaning};
