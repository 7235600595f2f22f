//! Examples, as tests, of the texts of statements, and of the tables, rows and locks that they work on.
//!
//! One module a crate, and undo for the extents of row_store. Each shows what no clause says: that calls succeed,
//! and texts and values that were worked out by hand from the rules, never taken from the program.
#![tactic(auto)]

#[cfg(test)]
mod catalogs;
#[cfg(test)]
mod given;
#[cfg(test)]
mod locks;
#[cfg(test)]
mod meanings;
#[cfg(test)]
mod rows;
#[cfg(test)]
mod runs;
#[cfg(test)]
mod statements;
#[cfg(test)]
mod stores;
#[cfg(test)]
mod tokens;
#[cfg(test)]
mod undo;
