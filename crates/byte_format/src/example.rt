//! An example of a format, to be copied: the label of a parcel.
//!
//! `specs/Example.antt` says the format in a few lines, and `proofs/ExampleLaws.antt` shows that it is exact by putting
//! the laws of its parts together. The impls of `Field` here are the code for it, and need no proof of their own.

mod codec;
mod label;

pub use codec::{read_label, write_label};
pub use label::{Contents, Label, Stops, Text};
