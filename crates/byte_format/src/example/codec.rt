//! The bytes of a label.
ghost use Rattle.std.specs.Prelude.{◌≡◌, IfOk, IsErrOf};
ghost use Rattle.byte_format.specs.declared.example.label.Label.{Label};
ghost use Rattle.byte_format.specs.Example.{is_weight, contents_format, label_format};
ghost use Rattle.byte_format.specs.Format.{IsSpelling};

use super::label::{Contents, Label, Stops, Text};
use crate::{
    Field, TakeErr, put_list_u8, put_run_u8, put_u8, put_u16, read_whole, take_list_u8,
    take_run_u8, take_u8, take_u16, write_whole,
};
use std::alloc::{AllocError, Global};

impl Field for Contents {
    type Value = Contents;

    ghost format = { contents_format };

    fn put_into(out: &mut Vec<u8>, contents: &Contents) -> Result<(), AllocError> {
        match contents {
            Contents::Letters(count) => {
                put_u8(out, 1)?;
                put_u16(out, *count)
            }
            Contents::Thing(name) => {
                put_u8(out, 2)?;
                put_run_u8(out, name.as_slice())
            }
        }
    }

    fn take_from(alloc: Global, bytes: &[u8]) -> Result<(Contents, &[u8]), TakeErr> {
        let (kind, rest) = take_u8(bytes)?;
        match kind {
            1 => {
                let (count, rest) = take_u16(rest)?;
                Ok((Contents::Letters(count), rest))
            }
            2 => {
                let (name, rest) = take_run_u8(rest)?;
                Ok((
                    Contents::Thing(Text::of(Vec::from_slice(alloc, name)?)),
                    rest,
                ))
            }
            _ => Err(TakeErr::NoSpelling),
        }
    }
}

/// Whether a parcel may weigh so many grams.
fn is_weight(grams: u16) -> bool
    ensures { result ≡ is_weight grams }
{
    1 <= grams && grams <= 30000
}

impl Field for Label {
    type Value = Label;

    ghost format = { label_format };

    fn put_into(out: &mut Vec<u8>, label: &Label) -> Result<(), AllocError> {
        put_u16(out, label.weight)?;
        Option::<u64>::put_into(out, &label.insured)?;
        put_list_u8::<u16>(out, label.stops.as_slice())?;
        Contents::put_into(out, &label.contents)
    }

    fn take_from(alloc: Global, bytes: &[u8]) -> Result<(Label, &[u8]), TakeErr> {
        let (weight, rest) = take_u16(bytes)?;
        if !is_weight(weight) {
            return Err(TakeErr::NoSpelling);
        }
        let (insured, rest) = Option::<u64>::take_from(alloc, rest)?;
        let (stops, rest) = take_list_u8::<u16>(alloc, rest)?;
        let (contents, rest) = Contents::take_from(alloc, rest)?;
        let label = Label {
            weight,
            insured,
            stops: Stops::of(stops),
            contents,
        };
        Ok((label, rest))
    }
}

/// The label that these bytes spell. Fails with `NoSpelling` exactly where they spell none, and with `NoMemory` where
/// memory runs out.
pub fn read_label(alloc: Global, bytes: &[u8]) -> Result<Label, TakeErr>
    ensures found { IfOk result (λ label. IsSpelling label_format bytes.now label) }
    ensures refused { IsErrOf result TakeErr.NoSpelling → (v : Label) → IsSpelling label_format bytes.now v → ⊥ }
{
    read_whole::<Label>(alloc, bytes)
}

/// The bytes of a label. Fails where memory runs out.
pub fn write_label(alloc: Global, label: &Label) -> Result<Vec<u8>, AllocError>
    requires { label_format.Fits label.now }
    ensures { IfOk result (λ bytes. IsSpelling label_format bytes.items label.now) }
{
    write_whole::<Label>(alloc, label)
}
