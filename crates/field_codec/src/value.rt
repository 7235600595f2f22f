//! The bytes of values.
ghost use Rattle.std.specs.Prelude.{◌≡◌, ◌++◌, IfOk, IsErrOf, OnOk};
ghost use Rattle.std.specs.Io.{StartsWith};
ghost use Rattle.byte_format.specs.Format.{IsFront, HasNoFront};
ghost use Rattle.field_codec.specs.Value.{value_format};

use crate::text::{TextField, put_text};
use byte_format::{Field, TakeErr, put_i64, put_u8, read_front, take_i64, take_u8};
use dtx_values::Value;
use std::alloc::{AllocError, Global};

/// A value: 0 for NULL, 1 and a number, or 2 and a text.
pub struct ValueField;

impl Field for ValueField {
    type Value = Value;

    ghost format = { value_format };

    fn put_into(out: &mut Vec<u8>, value: &Value) -> Result<(), AllocError> {
        put_value(out, value)
    }

    fn take_from(alloc: Global, bytes: &[u8]) -> Result<(Value, &[u8]), TakeErr> {
        let (kind, rest) = take_u8(bytes)?;
        match kind {
            0 => Ok((Value::Null, rest)),
            1 => {
                let (number, rest) = take_i64(rest)?;
                Ok((Value::Number(number), rest))
            }
            2 => {
                let (text, rest) = TextField::take_from(alloc, rest)?;
                Ok((Value::Text(text), rest))
            }
            _ => Err(TakeErr::NoSpelling),
        }
    }
}

/// Writes the value's spelling at the end. Fails where memory runs out.
pub fn put_value(out: &mut Vec<u8>, value: &Value) -> Result<(), AllocError>
    ensures written { OnOk result (out.new.items ≡ out.old.items ++ value_format.text value.now) }
    ensures kept { StartsWith out.new.items out.old.items }
{
    match value {
        Value::Null => put_u8(out, 0),
        Value::Number(number) => {
            put_u8(out, 1)?;
            put_i64(out, *number)
        }
        Value::Text(text) => {
            put_u8(out, 2)?;
            put_text(out, text)
        }
    }
}

/// The value whose spelling is at the front, and the bytes after it. Fails with `NoSpelling`
/// exactly where none is there, and with `NoMemory` where memory runs out.
pub fn take_value(alloc: Global, bytes: &[u8]) -> Result<(Value, &[u8]), TakeErr>
    ensures found { IfOk result (λ x. IsFront value_format bytes.now x.0 x.1.now) }
    ensures refused { IsErrOf result TakeErr.NoSpelling → HasNoFront value_format bytes.now }
{
    read_front::<ValueField>(alloc, bytes)
}
