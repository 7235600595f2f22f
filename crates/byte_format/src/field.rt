//! What is written and read in one format.
ghost use Rattle.std.specs.Prelude.{◌≡◌, ◌++◌, OnOk};
ghost use Rattle.std.specs.Io.{StartsWith};
ghost use Rattle.byte_format.specs.Format.{Format};
ghost use Rattle.byte_format.specs.Number.{number8, number16, number32, number64, signed64, flag};
ghost use Rattle.byte_format.specs.Part.{optional};
ghost use Rattle.byte_format.specs.Reads.{ReadsInMemory};

use crate::TakeErr;
use crate::putting::{put_flag, put_i64, put_u8, put_u16, put_u32, put_u64};
use crate::taking::{take_flag, take_i64, take_u8, take_u16, take_u32, take_u64};
use std::alloc::{AllocError, Global};

/// A part of a larger format: values that can be put at the end of some bytes, and taken from the front of some.
///
/// A type of one's own is a field of its own values. For values of a type of another crate, a type that holds nothing
/// stands for their format.
pub trait Field {
    /// What is written and read.
    type Value: Drop;

    /// How a value is spelled.
    ghost format: { Format Self.Value };

    /// Writes the value's spelling at the end. Fails where memory runs out; a part of the spelling may then be there.
    fn put_into(out: &mut Vec<u8>, value: &Self::Value) -> Result<(), AllocError>
        requires { format.Fits value.now }
        ensures written { OnOk result (out.new.items ≡ out.old.items ++ format.text value.now) }
        ensures kept { StartsWith out.new.items out.old.items };

    /// The value whose spelling is at the front, and the bytes after it. Fails with `NoSpelling` exactly where no
    /// spelling is there, and with `NoMemory` where memory runs out.
    fn take_from(alloc: Global, bytes: &[u8]) -> Result<(Self::Value, &[u8]), TakeErr>
        ensures { ReadsInMemory (λ x. (x.0, x.1.now)) result (format.read bytes.now) };
}

impl Field for u8 {
    type Value = u8;

    ghost format = { number8 };

    fn put_into(out: &mut Vec<u8>, value: &u8) -> Result<(), AllocError> {
        put_u8(out, *value)
    }

    fn take_from(_alloc: Global, bytes: &[u8]) -> Result<(u8, &[u8]), TakeErr> {
        Ok(take_u8(bytes)?)
    }
}

impl Field for u16 {
    type Value = u16;

    ghost format = { number16 };

    fn put_into(out: &mut Vec<u8>, value: &u16) -> Result<(), AllocError> {
        put_u16(out, *value)
    }

    fn take_from(_alloc: Global, bytes: &[u8]) -> Result<(u16, &[u8]), TakeErr> {
        Ok(take_u16(bytes)?)
    }
}

impl Field for u32 {
    type Value = u32;

    ghost format = { number32 };

    fn put_into(out: &mut Vec<u8>, value: &u32) -> Result<(), AllocError> {
        put_u32(out, *value)
    }

    fn take_from(_alloc: Global, bytes: &[u8]) -> Result<(u32, &[u8]), TakeErr> {
        Ok(take_u32(bytes)?)
    }
}

impl Field for u64 {
    type Value = u64;

    ghost format = { number64 };

    fn put_into(out: &mut Vec<u8>, value: &u64) -> Result<(), AllocError> {
        put_u64(out, *value)
    }

    fn take_from(_alloc: Global, bytes: &[u8]) -> Result<(u64, &[u8]), TakeErr> {
        Ok(take_u64(bytes)?)
    }
}

impl Field for i64 {
    type Value = i64;

    ghost format = { signed64 };

    fn put_into(out: &mut Vec<u8>, value: &i64) -> Result<(), AllocError> {
        put_i64(out, *value)
    }

    fn take_from(_alloc: Global, bytes: &[u8]) -> Result<(i64, &[u8]), TakeErr> {
        Ok(take_i64(bytes)?)
    }
}

impl Field for bool {
    type Value = bool;

    ghost format = { flag };

    fn put_into(out: &mut Vec<u8>, value: &bool) -> Result<(), AllocError> {
        put_flag(out, *value)
    }

    fn take_from(_alloc: Global, bytes: &[u8]) -> Result<(bool, &[u8]), TakeErr> {
        Ok(take_flag(bytes)?)
    }
}

impl<F: Field> Field for Option<F> {
    type Value = Option<F::Value>;

    ghost format = { optional F.format };

    fn put_into(out: &mut Vec<u8>, value: &Option<F::Value>) -> Result<(), AllocError> {
        match value {
            None => put_u8(out, 0),
            Some(value) => {
                put_u8(out, 1)?;
                F::put_into(out, value)
            }
        }
    }

    fn take_from(alloc: Global, bytes: &[u8]) -> Result<(Option<F::Value>, &[u8]), TakeErr> {
        match bytes {
            [0, rest @ ..] => Ok((None, rest)),
            [1, rest @ ..] => {
                let (value, rest) = F::take_from(alloc, rest)?;
                Ok((Some(value), rest))
            }
            _ => Err(TakeErr::NoSpelling),
        }
    }
}
