//! Lists after their count: the loops over items, written once for every type of them.
ghost use Rattle.std.specs.Prelude.{◌≡◌, ◌++◌, ◌<◌, ◌^◌, length, flat_map, OnOk};
ghost use Rattle.std.specs.List.{AllByRecursion};
ghost use Rattle.std.specs.Io.{StartsWith};
ghost use Rattle.byte_format.specs.Number.{number8, number32};
ghost use Rattle.byte_format.specs.Several.{times_at, counted};
ghost use Rattle.byte_format.specs.Reads.{ReadsInMemory};

use crate::putting::{put_u8, put_u32};
use crate::taking::{take_u8, take_u32};
use crate::{Field, TakeErr};
use std::alloc::{AllocError, Global};

/// Writes each item, one after the other. Fails where memory runs out.
pub fn put_each<F: Field>(out: &mut Vec<u8>, items: &[F::Value]) -> Result<(), AllocError>
    requires { AllByRecursion F.format.Fits items.now }
    ensures written { OnOk result (out.new.items ≡ out.old.items ++ flat_map F.format.text items.now) }
    ensures kept { StartsWith out.new.items out.old.items }
{
    for item in items {
        F::put_into(out, item)?;
    }
    Ok(())
}

/// So many items, one after the other, and the bytes after them. Fails with `NoSpelling` exactly
/// where they are not there, and with `NoMemory` where memory runs out.
pub fn take_each<F: Field>(
    alloc: Global,
    count: u32,
    bytes: &[u8],
) -> Result<(Vec<F::Value>, &[u8]), TakeErr>
    ensures { ReadsInMemory (λ x. (x.0.items, x.1.now)) result (times_at count F.format.read bytes.now) }
{
    let mut items = Vec::new(alloc);
    let mut rest = bytes;
    for _ in 0..count {
        let (item, after) = F::take_from(alloc, rest)?;
        items.push(item)?;
        rest = after;
    }
    Ok((items, rest))
}

/// Writes how many items there are, as one byte, and each. Fails where memory runs out.
pub fn put_list_u8<F: Field>(out: &mut Vec<u8>, items: &[F::Value]) -> Result<(), AllocError>
    requires { (counted number8 F.format).Fits items.now }
    ensures written { OnOk result (out.new.items ≡ out.old.items ++ (counted number8 F.format).text items.now) }
    ensures kept { StartsWith out.new.items out.old.items }
{
    put_u8(out, items.len() as u8)?;
    put_each::<F>(out, items)
}

/// The items after their count of one byte, and the bytes after them. Fails with `NoSpelling` exactly
/// where they are not there, and with `NoMemory` where memory runs out.
pub fn take_list_u8<F: Field>(
    alloc: Global,
    bytes: &[u8],
) -> Result<(Vec<F::Value>, &[u8]), TakeErr>
    ensures { ReadsInMemory (λ x. (x.0.items, x.1.now)) result ((counted number8 F.format).read bytes.now) }
{
    let (count, rest) = take_u8(bytes)?;
    take_each::<F>(alloc, count as u32, rest)
}

/// Writes how many items there are, as four bytes, and each. Fails where memory runs out.
pub fn put_list_u32<F: Field>(out: &mut Vec<u8>, items: &[F::Value]) -> Result<(), AllocError>
    requires { (counted number32 F.format).Fits items.now }
    ensures written { OnOk result (out.new.items ≡ out.old.items ++ (counted number32 F.format).text items.now) }
    ensures kept { StartsWith out.new.items out.old.items }
{
    put_u32(out, items.len() as u32)?;
    put_each::<F>(out, items)
}

/// The items after their count of four bytes, and the bytes after them. Fails with `NoSpelling` exactly
/// where they are not there, and with `NoMemory` where memory runs out.
pub fn take_list_u32<F: Field>(
    alloc: Global,
    bytes: &[u8],
) -> Result<(Vec<F::Value>, &[u8]), TakeErr>
    ensures { ReadsInMemory (λ x. (x.0.items, x.1.now)) result ((counted number32 F.format).read bytes.now) }
{
    let (count, rest) = take_u32(bytes)?;
    take_each::<F>(alloc, count, rest)
}
