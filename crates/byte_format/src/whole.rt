//! Reads and writes a value by its format, in words of the spelling alone.
ghost use Rattle.std.specs.Prelude.{◌≡◌, IfOk, IsErrOf};
ghost use Rattle.byte_format.specs.Format.{IsExact, IsFront, HasNoFront, IsSpelling};

use crate::{Field, TakeErr};
use std::alloc::{AllocError, Global};

/// The value whose spelling these bytes begin with, and the bytes after it. Fails with `NoSpelling` exactly where
/// they begin with none, and with `NoMemory` where memory runs out.
pub fn read_front<F: Field>(alloc: Global, bytes: &[u8]) -> Result<(F::Value, &[u8]), TakeErr>
    requires { IsExact F.format }
    ensures found { IfOk result (λ x. IsFront F.format bytes.now x.0 x.1.now) }
    ensures refused { IsErrOf result TakeErr.NoSpelling → HasNoFront F.format bytes.now }
{
    F::take_from(alloc, bytes)
}

/// The value whose spelling these bytes are, with nothing after it. Fails with `NoSpelling` exactly where they are
/// none, and with `NoMemory` where memory runs out.
pub fn read_whole<F: Field>(alloc: Global, bytes: &[u8]) -> Result<F::Value, TakeErr>
    requires { IsExact F.format }
    ensures found { IfOk result (λ value. IsSpelling F.format bytes.now value) }
    ensures refused { IsErrOf result TakeErr.NoSpelling → (v : F.Value) → IsSpelling F.format bytes.now v → ⊥ }
{
    let (value, rest) = F::take_from(alloc, bytes)?;
    if rest.is_empty() {
        Ok(value)
    } else {
        Err(TakeErr::NoSpelling)
    }
}

/// The value's spelling. Fails where memory runs out.
pub fn write_whole<F: Field>(alloc: Global, value: &F::Value) -> Result<Vec<u8>, AllocError>
    requires { F.format.Fits value.now }
    ensures { IfOk result (λ bytes. IsSpelling F.format bytes.items value.now) }
{
    let mut out = Vec::new(alloc);
    F::put_into(&mut out, value)?;
    Ok(out)
}
