//! The statements of the SQL subset, printed.
//!
//! `print_stmt` writes a statement in one way, that of `specs/Printing.antt`: keywords and names in upper case, one blank
//! between words and signs, and no word that may be left out. What it writes is read as the same statement again, by the
//! grammar of sql_parse: so a statement can be sent or kept as its text (`printed_statements_are_read`).
#![tactic(auto)]

mod clauses;
mod laws;
mod pieces;
mod printing;

pub use laws::{printed_statements_are_read, printed_statements_differ};
pub use printing::print_stmt;
