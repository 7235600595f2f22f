//! Undo in a pool by examples, as tests: what no clause says, and that calls succeed.
//!
//! One module a crate. What is expected was worked out by hand from the rules, never taken from the program.
#![tactic(auto)]

#[cfg(test)]
mod changes;
#[cfg(test)]
mod pools;
