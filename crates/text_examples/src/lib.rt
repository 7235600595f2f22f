//! Examples, as tests, of the texts of a run: the commands that a script is read as, the answers and the book that are
//! printed.
//!
//! One module a crate, commands for what scripts are read as, and texts for what the modules share. Each shows what no
//! clause says: that calls succeed, and texts and values that were worked out by hand from the rules, never taken from
//! the program.
#![tactic(auto)]

#[cfg(test)]
mod books;
#[cfg(test)]
mod commands;
#[cfg(test)]
mod reports;
#[cfg(test)]
mod scripts;
#[cfg(test)]
mod texts;
