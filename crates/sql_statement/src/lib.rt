//! The statements of the SQL subset as data, as the SQL Language Reference lists their parts.
//!
//! `Stmt` and its parts are plain data, apart from the texts that spell them, so that what runs statements does not stand
//! on what reads them. What holds of each statement that a text spells is said by `IsWhole` in `specs/Whole.antt`.
#![tactic(auto)]

mod condition;
mod query;
mod statement;
mod sum;

pub use condition::{Cond, Conds, Sign};
pub use query::Picked;
pub use statement::{Set, Sets, Stmt, TableRef};
pub use sum::{Step, Steps, Sum, Sums, Term};
