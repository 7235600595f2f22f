//! The text of each answer: refusals, the rows that a query found, what was done; bytes in lines; and lines with the number of
//! their command in front.
//!
//! `specs/Report.antt` defines a whole report, from the definitions of these texts. Calls fail where memory runs out
//! and for no other reason.
#![tactic(auto)]

mod answers;
mod bytes;
mod numbered;
mod refusals;
mod rows;

pub use answers::{answer_lines, notice_lines};
pub use bytes::byte_lines;
pub use numbered::put_numbered;
pub use refusals::refusal_text;
pub use rows::{bars, view_lines};
