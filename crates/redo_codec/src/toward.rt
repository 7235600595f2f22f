//! The bytes of the way to the commit point site.
ghost use Rattle.std.specs.Prelude.{◌≡◌, ◌++◌, OnOk};
ghost use Rattle.std.specs.Io.{StartsWith};
ghost use Rattle.byte_format.specs.Reads.{ReadsInMemory};
ghost use Rattle.redo_codec.specs.Sealed.{toward_at, toward_format};

use byte_format::{Field, TakeErr, put_u8, take_u8};
use redo_record::Toward;
use std::alloc::{AllocError, Global};

/// The neighbour on the way to the commit point site: 0 for the parent, and i for the i-th child, from 1.
pub(crate) struct TowardField;

impl Field for TowardField {
    type Value = Toward;

    ghost format = { toward_format };

    fn put_into(out: &mut Vec<u8>, toward: &Toward) -> Result<(), AllocError> {
        match toward {
            Toward::Parent => put_u8(out, 0),
            Toward::Child(child) => put_u8(out, *child + 1),
        }
    }

    fn take_from(_alloc: Global, bytes: &[u8]) -> Result<(Toward, &[u8]), TakeErr> {
        let (number, rest) = take_u8(bytes)?;
        Ok((toward_at(number), rest))
    }
}

/// The neighbour that this number stands for.
fn toward_at(number: u8) -> Toward
    ensures { result ≡ toward_at number }
{
    if number == 0 {
        Toward::Parent
    } else {
        Toward::Child(number - 1)
    }
}
