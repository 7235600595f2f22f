//! The bytes of images of checkpoints, both ways.
//!
//! An image is one record, of kind 13: a byte 1, a byte 13, and its fields. Their format is a value of `byte_format`'s, in
//! `specs/`, and is shown to be exact, so that no bytes spell two images. The rows of each table have no count of tables of
//! their own: there are as many lists of rows as tables. `image_length` says how long a body is without making it. No
//! crate uses it yet.
#![tactic(auto)]

mod body;
mod catalog;
mod image;
mod kept;
mod laws;
mod length;
mod neighbor;
mod order;
mod state;

pub use body::{decode, encode};
pub use image::ImageField;
pub use laws::images_are_exact;
pub use length::image_length;
pub use redo_codec::DecodeErr;
