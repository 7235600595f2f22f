//! The book of a run: what an administrator reads of the redo records, an entry for each that matters.
//!
//! [`entries`] gives the entries of what a node wrote in a turn, and [`book_lines`] and [`book_text`] print them.
//! Beside the book are the data of a run: what happens in it, its [`Trace`], and the answers of its commands, the
//! [`AnswerLines`]. Calls fail where memory runs out and for no other reason.
#![tactic(auto)]

mod entry;
mod happening;
mod line;
mod printing;
mod record_entries;

pub use entry::{Book, Entry};
pub use happening::{Happening, Took, Trace, Turn};
pub use line::{AnswerLine, AnswerLines, Said};
pub use printing::{book_lines, book_text, entry_text};
pub use record_entries::entries;
