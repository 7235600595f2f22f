//! Formats of bytes: what spells a value, and what it is read as, said once for writing and reading.
//!
//! A codec is mostly written as two functions that have to agree: one writes the fields of a record, the other reads
//! them back. Here the agreement is a value of its own. A **format** of a type says three things: which values have a
//! spelling (`Fits`), what the spelling is (`text`), and how a value is read from the front of some bytes (`read`).
//!
//! Formats are put together like types. `number16` is the format of a number as two bytes. `pair number16 flag` is that
//! of a number and then a flag, `optional number64` that of a number which may be missing, `counted number8 name` that
//! of a list of names after a byte that counts them, and `tested is_weight number16` leaves out the numbers that are
//! no weight. `choice` lets a byte in front say which of several formats follows. So the definition of a format reads
//! like the table of its fields. It stands in `specs/`, nothing of it is run, and there is one definition for both ways.
//!
//! **What is gained**: each format here is *exact* (`IsExact`). What is read is spelled so, and what is spelled is read
//! as that value, whatever follows it. So no bytes spell two values, and no spelling is the beginning of another. A
//! format made of exact ones is exact: each way to put them together has one law, and the proof for a format of one's
//! own is these laws, put together as the format is. `src/laws.rt` states them.
//!
//! **The code** for a format is small functions. `put_..` writes a spelling at the end of a `Vec<u8>`, and `take_..`
//! takes the value from the front of a slice, and hands on the rest. It answers `NoSpelling` exactly where no spelling
//! is at the front. A type of one's own implements `Field`: its format, and the `put_..` and `take_..` calls of its
//! fields in order. For values of another crate's type, a type that holds nothing implements it. Then it may be in an
//! `Option`, in a list, or in a larger format, and `read_whole` says of it, in words of its spelling alone: the value that
//! these bytes spell, or that they spell none.
//!
//! A `put_..` that runs out of memory may have written a part of the spelling: what was there before is still in front.
//!
//! To write a format: copy `example`.
#![tactic(auto)]

mod errors;
pub mod example;
mod field;
mod laws;
mod lists;
mod putting;
mod taking;
mod whole;

pub use errors::{NoSpelling, TakeErr};
pub use field::Field;
pub use laws::{
    choice_is_exact, has_one_reading, list_is_exact, mapped_is_exact, numbers_are_exact,
    option_is_exact, pair_is_exact, runs_are_exact, tested_is_exact,
};
pub use lists::{put_each, put_list_u8, put_list_u32, take_each, take_list_u8, take_list_u32};
pub use putting::{
    put_flag, put_i64, put_run_u8, put_run_u16, put_run_u32, put_u8, put_u16, put_u32, put_u48,
    put_u64,
};
pub use taking::{
    take_constant, take_flag, take_i64, take_run_u8, take_run_u16, take_run_u32, take_u8, take_u16,
    take_u32, take_u48, take_u64,
};
pub use whole::{read_front, read_whole, write_whole};
