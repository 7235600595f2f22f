//! A statement checked against its table, before any row is seen.
//!
//! The columns that a statement names, the types that it gives them, and the values of an INSERT are known from the
//! statement and its table alone. What is wrong with them is one refusal, the first in a fixed order. Each function computes
//! the definition of its name in specs/, and fails where memory runs out.
//!
//! The types are NUMBER, here of 64 bits, and VARCHAR2; the rules are those of the SQL Language Reference ("Data Type
//! Comparison Rules", "Arithmetic Operators", "INSERT", "UPDATE").
#![tactic(auto)]

mod checking;
mod column;
mod fitting;
mod inserted;
mod naming;
mod passed;
mod refusal;
mod sum;

pub use checking::{OUT_OF_RANGE, checked};
pub use column::{cell, column_of, copy_or_null, is_key, key_of_row, place_of};
pub use inserted::too_long;
pub use passed::Checked;
pub use refusal::{of_column, of_name, plain};
pub use sum::{plus, sum_value};
