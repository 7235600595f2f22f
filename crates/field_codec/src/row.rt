//! The bytes of rows.
ghost use Rattle.std.specs.Prelude.{◌≡◌, ◌++◌, IfOk, IsErrOf, OnOk};
ghost use Rattle.std.specs.Io.{StartsWith};
ghost use Rattle.byte_format.specs.Format.{IsFront, HasNoFront};
ghost use Rattle.field_codec.specs.Value.{row_format};

use crate::value::ValueField;
use byte_format::{Field, TakeErr, put_list_u8, read_front, take_list_u8};
use dtx_values::{Cells, Row};
use std::alloc::{AllocError, Global};

/// A row: its values, after their count of one byte.
pub struct RowField;

impl Field for RowField {
    type Value = Row;

    ghost format = { row_format };

    fn put_into(out: &mut Vec<u8>, row: &Row) -> Result<(), AllocError> {
        put_row(out, row)
    }

    fn take_from(alloc: Global, bytes: &[u8]) -> Result<(Row, &[u8]), TakeErr> {
        let (cells, rest) = take_list_u8::<ValueField>(alloc, bytes)?;
        let cells = Cells::of(cells);
        Ok((Row { cells }, rest))
    }
}

/// Writes the row's spelling at the end. Fails where memory runs out.
pub fn put_row(out: &mut Vec<u8>, row: &Row) -> Result<(), AllocError>
    requires { row_format.Fits row.now }
    ensures written { OnOk result (out.new.items ≡ out.old.items ++ row_format.text row.now) }
    ensures kept { StartsWith out.new.items out.old.items }
{
    put_list_u8::<ValueField>(out, row.cells.as_slice())
}

/// The row whose spelling is at the front, and the bytes after it. Fails with `NoSpelling`
/// exactly where none is there, and with `NoMemory` where memory runs out.
pub fn take_row(alloc: Global, bytes: &[u8]) -> Result<(Row, &[u8]), TakeErr>
    ensures found { IfOk result (λ x. IsFront row_format bytes.now x.0 x.1.now) }
    ensures refused { IsErrOf result TakeErr.NoSpelling → HasNoFront row_format bytes.now }
{
    read_front::<RowField>(alloc, bytes)
}
