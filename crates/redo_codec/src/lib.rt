//! The bytes of redo records, both ways.
//!
//! Each part of a record has a format, a value of `byte_format`'s, in `specs/` or, where messages have it too, in
//! field_codec: it says which bytes spell which value, and is shown to be exact, so that no bytes spell two records.
//! `encode` writes the body of a record, and `decode` reads it back. A body is a byte 1, a byte that names the kind of
//! the record, and the record's fields; numbers stand most significant byte first.
#![tactic(auto)]

mod body;
mod decision;
mod decode_err;
mod kept;
mod laws;
mod param;
mod putting;
mod record;
mod taking;
mod toward;

pub use body::{decode, encode};
pub use decode_err::DecodeErr;
pub use laws::records_are_exact;
