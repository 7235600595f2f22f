//! The bytes of an image by an example from outside.
ghost use Rattle.image_codec.specs.Image.{body_format};

use image_codec::{DecodeErr, decode, encode, image_length};
use std::alloc::Global;

/// The first image of a node that has nothing yet: generation 1, SCN 0, no commit, start 1, recovery enabled, no strength.
const FIRST_IMAGE: [u8; 44] = [
    1, 13, 0, 0, 0, 0, 0, 0, 0, 1, 0, 0, 0, 0, 0, 0, 0, 0, 0, 0, 0, 0, 0, 0, 0, 1, 1, 0, 0, 0, 0,
    0, 0, 0, 0, 0, 0, 0, 0, 0, 0, 0, 0, 0,
];

/// The generation and the start of the image with this body, its length, and whether it is spelled so again.
fn read(alloc: Global, body: &[u8]) -> Result<(u64, u32, u64, bool), DecodeErr> {
    let image = decode(alloc, body)?;
    match encode(alloc, &image) {
        Ok(again) => {
            let length = image_length(&image);
            Ok((
                image.generation,
                image.boot,
                length,
                again.as_slice() == body,
            ))
        }
        Err(_) => Err(DecodeErr::NoMemory),
    }
}

#[test]
fn the_first_image_is_read_and_written(rt: HostRuntime) {
    assert!(rt; read(rt.alloc(), &FIRST_IMAGE) == Ok((1, 1, 44, true)));
    assert!(rt; read(rt.alloc(), &FIRST_IMAGE[..43]) == Err(DecodeErr::NotARecord));
}
