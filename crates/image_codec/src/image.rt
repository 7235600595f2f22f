//! The bytes of the fields of images.
ghost use Rattle.std.specs.Prelude.{◌≡◌, ◌++◌, OnOk};
ghost use Rattle.std.specs.Io.{StartsWith};
ghost use Rattle.byte_format.specs.Number.{number32};
ghost use Rattle.byte_format.specs.Part.{tested};
ghost use Rattle.byte_format.specs.Several.{counted};
ghost use Rattle.byte_format.specs.Reads.{ReadsInMemory};
ghost use Rattle.image_codec.specs.Kept.{item_format};
ghost use Rattle.image_codec.specs.Order.{are_in_order};
ghost use Rattle.image_codec.specs.Image.{settings_format, start_format, image_format};

use crate::catalog::{put_catalog, take_catalog};
use crate::kept::ItemField;
use crate::order::are_in_order;
use byte_format::{
    Field, TakeErr, put_flag, put_u32, put_u48, put_u64, take_flag, take_u32, take_u48, take_u64,
};
use dtx_values::Listing;
use field_codec::ListField;
use redo_record::{Image, KeptItem};
use std::alloc::{AllocError, Global};

/// Writes the number of the start, and what is set. Fails where memory runs out.
fn put_settings(out: &mut Vec<u8>, image: &Image) -> Result<(), AllocError>
    requires { settings_format.Fits (image.now.boot, (image.now.recovery, image.now.strength)) }
    ensures written { OnOk result (out.new.items ≡ out.old.items ++ settings_format.text (image.now.boot, (image.now.recovery, image.now.strength))) }
    ensures kept { StartsWith out.new.items out.old.items }
{
    put_u32(out, image.boot)?;
    put_flag(out, image.recovery)?;
    Option::<u8>::put_into(out, &image.strength)
}

/// Writes what stands in front of the tables. Fails where memory runs out.
fn put_start(out: &mut Vec<u8>, image: &Image) -> Result<(), AllocError>
    requires { start_format.Fits (image.now.generation, (image.now.clock, (image.now.top, (image.now.boot, (image.now.recovery, image.now.strength))))) }
    ensures written { OnOk result (out.new.items ≡ out.old.items ++ start_format.text (image.now.generation, (image.now.clock, (image.now.top, (image.now.boot, (image.now.recovery, image.now.strength)))))) }
    ensures kept { StartsWith out.new.items out.old.items }
{
    put_u64(out, image.generation)?;
    put_u48(out, image.clock)?;
    put_u48(out, image.top)?;
    put_settings(out, image)
}

/// Kept branches in the order of their ids, and the bytes after them. Fails with `NoSpelling` exactly where they are not
/// there, and with `NoMemory` where memory runs out.
fn take_kept(alloc: Global, bytes: &[u8]) -> Result<(Listing<KeptItem>, &[u8]), TakeErr>
    ensures { ReadsInMemory (λ x. (x.0, x.1.now)) result ((tested are_in_order (counted number32 item_format)).read bytes.now) }
{
    let (kept, rest) = ListField::<ItemField>::take_from(alloc, bytes)?;
    if !are_in_order(kept.as_slice()) {
        return Err(TakeErr::NoSpelling);
    }
    Ok((kept, rest))
}

/// The fields of an image.
pub struct ImageField;

impl Field for ImageField {
    type Value = Image;

    ghost format = { image_format };

    fn put_into(out: &mut Vec<u8>, image: &Image) -> Result<(), AllocError> {
        put_start(out, image)?;
        put_catalog(out, image)?;
        ListField::<ItemField>::put_into(out, &image.kept)
    }

    fn take_from(alloc: Global, bytes: &[u8]) -> Result<(Image, &[u8]), TakeErr> {
        let (generation, rest) = take_u64(bytes)?;
        let (clock, rest) = take_u48(rest)?;
        let (top, rest) = take_u48(rest)?;
        let (boot, rest) = take_u32(rest)?;
        let (recovery, rest) = take_flag(rest)?;
        let (strength, rest) = Option::<u8>::take_from(alloc, rest)?;
        let (catalog, rest) = take_catalog(alloc, rest)?;
        let (kept, rest) = take_kept(alloc, rest)?;
        let image = Image {
            generation,
            clock,
            top,
            boot,
            recovery,
            strength,
            tables: catalog.tables,
            links: catalog.links,
            synonyms: catalog.synonyms,
            rows: catalog.rows,
            kept,
        };
        Ok((image, rest))
    }
}
