//! The bytes of texts: those of cells, comments, other texts of UTF-8, and runs of bytes that need be no text.
ghost use Rattle.std.specs.Prelude.{◌≡◌, ◌++◌, true, false, IfOk, IsErrOf, OnOk};
ghost use Rattle.std.specs.Io.{StartsWith};
ghost use Rattle.std.specs.Str.{is_utf8};
ghost use Rattle.dtx_values.specs.Limits.{comment_limit};
ghost use Rattle.dtx_values.specs.Str.{is_text, is_text_to};
ghost use Rattle.byte_format.specs.Format.{IsFront, HasNoFront};
ghost use Rattle.byte_format.specs.Number.{number32};
ghost use Rattle.byte_format.specs.Part.{run};
ghost use Rattle.byte_format.specs.Reads.{ReadsInMemory};
ghost use Rattle.field_codec.specs.Text.{text_format, utf8_format, comment_format};

use byte_format::{
    Field, TakeErr, put_run_u16, put_run_u32, read_front, take_run_u16, take_run_u32,
};
use dtx_values::{Bytes, COMMENT_LIMIT, Str, TextErr};
use std::alloc::{AllocError, Global};

/// A text of a cell, of 1 to 2,000 bytes of UTF-8, after its length of two bytes.
pub struct TextField;

impl Field for TextField {
    type Value = Str;

    ghost format = { text_format };

    fn put_into(out: &mut Vec<u8>, text: &Str) -> Result<(), AllocError> {
        put_text(out, text)
    }

    fn take_from(alloc: Global, bytes: &[u8]) -> Result<(Str, &[u8]), TakeErr> {
        let (text, rest) = take_run_u16(bytes)?;
        let text = text_of(alloc, text)?;
        Ok((text, rest))
    }
}

/// The text of these bytes. Fails with `NoSpelling` exactly where no cell holds such a text, and with `NoMemory` where
/// memory runs out.
fn text_of(alloc: Global, bytes: &[u8]) -> Result<Str, TakeErr>
    ensures found { IfOk result (λ text. (is_text bytes.now ≡ true) × (text ≡ bytes.now)) }
    ensures refused { IsErrOf result TakeErr.NoSpelling → is_text bytes.now ≡ false }
{
    match Str::from_bytes(alloc, bytes) {
        Ok(text) => Ok(text),
        Err(TextErr::NoMemory) => Err(TakeErr::NoMemory),
        Err(TextErr::Empty | TextErr::TooLong | TextErr::NotUtf8) => Err(TakeErr::NoSpelling),
    }
}

/// Writes the text's spelling at the end. Fails where memory runs out.
pub fn put_text(out: &mut Vec<u8>, text: &Str) -> Result<(), AllocError>
    ensures written { OnOk result (out.new.items ≡ out.old.items ++ text_format.text text.now) }
    ensures kept { StartsWith out.new.items out.old.items }
{
    put_run_u16(out, text.as_bytes())
}

/// The text whose spelling is at the front, and the bytes after it. Fails with `NoSpelling` exactly where none is
/// there, and with `NoMemory` where memory runs out.
pub fn take_text(alloc: Global, bytes: &[u8]) -> Result<(Str, &[u8]), TakeErr>
    ensures found { IfOk result (λ x. IsFront text_format bytes.now x.0 x.1.now) }
    ensures refused { IsErrOf result TakeErr.NoSpelling → HasNoFront text_format bytes.now }
{
    read_front::<TextField>(alloc, bytes)
}

/// Whether these bytes are UTF-8.
fn is_utf8(bytes: &[u8]) -> bool
    ensures { result ≡ is_utf8 bytes.now }
{
    std::str::from_utf8(bytes).is_ok()
}

/// A text of at most 65,535 bytes of UTF-8, which may be empty, after its length of two bytes.
pub struct Utf8Field;

impl Field for Utf8Field {
    type Value = Bytes;

    ghost format = { utf8_format };

    fn put_into(out: &mut Vec<u8>, text: &Bytes) -> Result<(), AllocError> {
        put_run_u16(out, text.as_slice())
    }

    fn take_from(alloc: Global, bytes: &[u8]) -> Result<(Bytes, &[u8]), TakeErr> {
        let (text, rest) = take_run_u16(bytes)?;
        if !is_utf8(text) {
            return Err(TakeErr::NoSpelling);
        }
        Ok((Bytes::of(Vec::from_slice(alloc, text)?), rest))
    }
}

/// Whether these bytes may be a comment.
fn is_comment(bytes: &[u8]) -> bool
    ensures { result ≡ is_text_to comment_limit bytes.now }
{
    bytes.len() <= COMMENT_LIMIT && is_utf8(bytes)
}

/// A comment, of at most 255 bytes of UTF-8, after its length of two bytes.
pub struct CommentField;

impl Field for CommentField {
    type Value = Bytes;

    ghost format = { comment_format };

    fn put_into(out: &mut Vec<u8>, comment: &Bytes) -> Result<(), AllocError> {
        put_run_u16(out, comment.as_slice())
    }

    fn take_from(alloc: Global, bytes: &[u8]) -> Result<(Bytes, &[u8]), TakeErr> {
        let (comment, rest) = take_run_u16(bytes)?;
        if !is_comment(comment) {
            return Err(TakeErr::NoSpelling);
        }
        Ok((Bytes::of(Vec::from_slice(alloc, comment)?), rest))
    }
}

/// Bytes of any kind, after their length of four bytes.
pub struct BytesField;

impl Field for BytesField {
    type Value = Bytes;

    ghost format = { run number32 };

    fn put_into(out: &mut Vec<u8>, run: &Bytes) -> Result<(), AllocError> {
        put_run_u32(out, run.as_slice())
    }

    fn take_from(alloc: Global, bytes: &[u8]) -> Result<(Bytes, &[u8]), TakeErr> {
        let (run, rest) = take_run_u32(bytes)?;
        Ok((Bytes::of(Vec::from_slice(alloc, run)?), rest))
    }
}
