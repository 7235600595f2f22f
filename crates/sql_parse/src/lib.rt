//! The statements of the SQL subset, read from their texts.
//!
//! Which texts spell a statement is said by `IsStatement` in `specs/Statement.antt`:
//! the text is cut into tokens, and these are spelled as a grammar says, a form of statement a definition, in the other
//! files of `specs/`. The grammar is made of the combinators of token_grammar, and so are its proofs of being exact: no
//! text spells two statements (`one_reading`), and `parse` finds the one that it spells, or says that there is none.
#![tactic(auto)]

mod catalog;
mod changes;
mod columns;
mod conditions;
mod laws;
mod lists;
mod literals;
mod parse_err;
mod parsing;
mod parts;
mod queries;
mod rule;
mod sums;
mod transactions;

pub use laws::{
    created_tables_are_whole, one_reading, spelled_statements_are_found,
    spelled_statements_are_whole,
};
pub use parse_err::ParseErr;
pub use parsing::parse;
