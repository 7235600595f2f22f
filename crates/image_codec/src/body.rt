//! The bodies of the records of images.
ghost use Rattle.std.specs.Prelude.{◌≡◌, ◌++◌, IfOk, IsErrOf, OnOk};
ghost use Rattle.std.specs.Io.{StartsWith};
ghost use Rattle.redo_record.specs.declared.image.Image.{Image};
ghost use Rattle.byte_format.specs.Format.{IsSpelling};
ghost use Rattle.byte_format.specs.Reads.{ReadsInMemory};
ghost use Rattle.image_codec.specs.Image.{body_format};

use crate::image::ImageField;
use byte_format::{Field, TakeErr, put_u8, read_whole, write_whole};
use dtx_values::Bytes;
use redo_codec::DecodeErr;
use redo_record::Image;
use std::alloc::{AllocError, Global};

/// The byte that each record begins with.
const FORMAT: u8 = 1;

/// The kind of an image among the records.
const IMAGE: u8 = 13;

/// The record of an image: the first byte, the byte of its kind, and its fields.
struct BodyField;

impl Field for BodyField {
    type Value = Image;

    ghost format = { body_format };

    fn put_into(out: &mut Vec<u8>, image: &Image) -> Result<(), AllocError> {
        put_u8(out, FORMAT)?;
        put_u8(out, IMAGE)?;
        ImageField::put_into(out, image)
    }

    fn take_from(alloc: Global, bytes: &[u8]) -> Result<(Image, &[u8]), TakeErr> {
        match bytes {
            [FORMAT, IMAGE, rest @ ..] => ImageField::take_from(alloc, rest),
            _ => Err(TakeErr::NoSpelling),
        }
    }
}

/// The body of the record of an image, which has to have a spelling. Fails where memory runs out.
pub fn encode(alloc: Global, image: &Image) -> Result<Bytes, AllocError>
    requires { body_format.Fits image.now }
    ensures { IfOk result (λ body. IsSpelling body_format body image.now) }
{
    Ok(Bytes::of(write_whole::<BodyField>(alloc, image)?))
}

/// Why no image is made of bytes that were not read as one.
fn decode_err(err: TakeErr) -> DecodeErr
    ensures none { result ≡ DecodeErr.NotARecord → err ≡ TakeErr.NoSpelling }
    ensures memory { result ≡ DecodeErr.NoMemory → err ≡ TakeErr.NoMemory }
{
    match err {
        TakeErr::NoSpelling => DecodeErr::NotARecord,
        TakeErr::NoMemory => DecodeErr::NoMemory,
    }
}

/// The image whose record has this body. Fails with `NotARecord` exactly where this is the body of no image, and with
/// `NoMemory` where memory runs out.
pub fn decode(alloc: Global, body: &[u8]) -> Result<Image, DecodeErr>
    ensures found { IfOk result (λ i. IsSpelling body_format body.now i) }
    ensures refused { IsErrOf result DecodeErr.NotARecord → (i : Image) → IsSpelling body_format body.now i → ⊥ }
{
    match read_whole::<BodyField>(alloc, body) {
        Ok(image) => Ok(image),
        Err(err) => Err(decode_err(err)),
    }
}
