//! The catalog of a node: its tables, database links and synonyms by name, and whether its recovery is enabled.
//!
//! Tables and synonyms share one space of names, and links have one of their own. Contracts see three lists in the
//! order in which the items were made; a look-up goes by a hash table of names.
#![tactic(auto)]

mod by_name;
mod cat_err;
mod catalog;

pub use cat_err::CatErr;
pub use catalog::Catalog;
