//! Lists after their count.
ghost use Rattle.std.specs.Prelude.{◌≡◌, ◌++◌, OnOk};
ghost use Rattle.std.specs.Io.{StartsWith};
ghost use Rattle.byte_format.specs.Number.{number32};
ghost use Rattle.byte_format.specs.Several.{counted};
ghost use Rattle.byte_format.specs.Reads.{ReadsInMemory};

use byte_format::{Field, TakeErr, put_list_u32, take_list_u32};
use dtx_values::Listing;
use std::alloc::{AllocError, Global};
use std::marker::PhantomData;

/// A list of items of this field, after its count of four bytes.
pub struct ListField<F> {
    item: PhantomData<F>,
}

impl<F: Field> Field for ListField<F> {
    type Value = Listing<F::Value>;

    ghost format = { counted number32 F.format };

    fn put_into(out: &mut Vec<u8>, items: &Listing<F::Value>) -> Result<(), AllocError> {
        put_list_u32::<F>(out, items.as_slice())
    }

    fn take_from(alloc: Global, bytes: &[u8]) -> Result<(Listing<F::Value>, &[u8]), TakeErr> {
        let (items, rest) = take_list_u32::<F>(alloc, bytes)?;
        Ok((Listing::of(items), rest))
    }
}
