//! The bytes of messages, both ways.
//!
//! A message is a byte that names its kind, the branch that sends it, the branch that it is for, the sender's clock, and
//! the fields of its kind; numbers stand most significant byte first. `msg_format` in `specs/Message.antt` says so, as
//! a value of `byte_format`'s. `encode_msg` writes a message, and `decode_msg` reads it back.
//!
//! An Exec holds its statement as a text. A statement has many texts, so a message with one has many spellings:
//! `decode_msg` takes each of them, and `encode_msg` writes the printed one. No bytes spell two messages
//! (`messages_are_read`). `message_of` is the message that some bytes spell, as a function, for the contracts of others.
//! `message_fits` shows that a message has a spelling, which `encode_msg` asks for.
#![tactic(auto)]

mod answer;
mod fits;
mod laws;
mod message;
mod putting;
mod statement;
mod taking;
mod whole;
mod wire_err;

pub use fits::message_fits;
pub use laws::{messages_are_read, read_messages_fit};
pub use whole::{decode_msg, encode_msg};
pub use wire_err::WireErr;
