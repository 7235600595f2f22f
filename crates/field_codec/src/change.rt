//! The bytes of changes.
ghost use Rattle.std.specs.Prelude.{◌≡◌, ◌++◌, IfOk, IsErrOf, OnOk};
ghost use Rattle.std.specs.Io.{StartsWith};
ghost use Rattle.byte_format.specs.Format.{IsFront, HasNoFront};
ghost use Rattle.field_codec.specs.Change.{change_format};

use crate::name::{NameField, put_name};
use crate::row::RowField;
use crate::value::{ValueField, put_value};
use byte_format::{Field, TakeErr, read_front};
use dtx_values::{Change, Value};
use std::alloc::{AllocError, Global};

/// A change: its table, its key, which is not NULL, and the row that is there afterwards, if one is.
pub struct ChangeField;

impl Field for ChangeField {
    type Value = Change;

    ghost format = { change_format };

    fn put_into(out: &mut Vec<u8>, change: &Change) -> Result<(), AllocError> {
        put_change(out, change)
    }

    fn take_from(alloc: Global, bytes: &[u8]) -> Result<(Change, &[u8]), TakeErr> {
        let (table, rest) = NameField::take_from(alloc, bytes)?;
        let (key, rest) = ValueField::take_from(alloc, rest)?;
        if matches!(key, Value::Null) {
            return Err(TakeErr::NoSpelling);
        }
        let (after, rest) = Option::<RowField>::take_from(alloc, rest)?;
        Ok((Change { table, key, after }, rest))
    }
}

/// Writes the change's spelling at the end. Fails where memory runs out.
pub fn put_change(out: &mut Vec<u8>, change: &Change) -> Result<(), AllocError>
    requires { change_format.Fits change.now }
    ensures written { OnOk result (out.new.items ≡ out.old.items ++ change_format.text change.now) }
    ensures kept { StartsWith out.new.items out.old.items }
{
    put_name(out, &change.table)?;
    put_value(out, &change.key)?;
    Option::<RowField>::put_into(out, &change.after)
}

/// The change whose spelling is at the front, and the bytes after it. Fails with `NoSpelling`
/// exactly where none is there, and with `NoMemory` where memory runs out.
pub fn take_change(alloc: Global, bytes: &[u8]) -> Result<(Change, &[u8]), TakeErr>
    ensures found { IfOk result (λ x. IsFront change_format bytes.now x.0 x.1.now) }
    ensures refused { IsErrOf result TakeErr.NoSpelling → HasNoFront change_format bytes.now }
{
    read_front::<ChangeField>(alloc, bytes)
}
