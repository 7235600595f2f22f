//! Values as statements write them.
ghost use Rattle.std.specs.Prelude.{◌≡◌, ◌++◌, IfOk, OnOk};
ghost use Rattle.std.specs.List.{flat_map};
ghost use Rattle.dtx_values.specs.Texts.{quoted_byte, text_of_value};

use crate::{Bytes, Listing, Value};
use itoa::Buffer;
use std::alloc::{AllocError, Global};

/// A value as it stands in a statement: `NULL`, a number in decimal, or a text in quotes, in which each quote is
/// written twice.
pub fn value_text(alloc: Global, value: &Value) -> Result<Bytes, AllocError>
    ensures { IfOk result (λ text. text ≡ text_of_value value.now) }
{
    let mut out = Vec::new(alloc);
    match value {
        Value::Null => out.extend_from_slice(b"NULL")?,
        Value::Number(number) => out.extend_from_slice(Buffer::new().format(*number).as_bytes())?,
        Value::Text(text) => {
            out.push(b'\'')?;
            put_doubled(&mut out, text.as_bytes())?;
            out.push(b'\'')?;
        }
    }
    Ok(Listing::of(out))
}

// Adds the bytes at the end, each quote twice.
fn put_doubled(out: &mut Vec<u8>, bytes: &[u8]) -> Result<(), AllocError>
    ensures { OnOk result (out.new.items ≡ out.old.items ++ flat_map quoted_byte bytes.now) }
{
    for byte in bytes {
        if *byte == b'\'' {
            out.push(b'\'')?;
        }
        out.push(*byte)?;
    }
    Ok(())
}
