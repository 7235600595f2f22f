//! The bytes of records.
ghost use Rattle.std.specs.Prelude.{◌≡◌, ◌++◌, OnOk};
ghost use Rattle.std.specs.Io.{StartsWith};
ghost use Rattle.byte_format.specs.Reads.{ReadsInMemory};
ghost use Rattle.redo_codec.specs.Record.{record_kind, record_format};

use crate::putting::put_fields;
use crate::taking::take_fields;
use byte_format::{Field, TakeErr, put_u8};
use redo_record::RedoRecord;
use std::alloc::{AllocError, Global};

/// The byte that each record begins with.
const FORMAT: u8 = 1;

/// A record: the first byte, the byte of its kind, and its fields.
pub(crate) struct RecordField;

impl Field for RecordField {
    type Value = RedoRecord;

    ghost format = { record_format };

    fn put_into(out: &mut Vec<u8>, redo: &RedoRecord) -> Result<(), AllocError> {
        put_u8(out, FORMAT)?;
        put_u8(out, kind_of(redo))?;
        put_fields(out, redo)
    }

    fn take_from(alloc: Global, bytes: &[u8]) -> Result<(RedoRecord, &[u8]), TakeErr> {
        match bytes {
            [FORMAT, kind, rest @ ..] => take_fields(alloc, *kind, rest),
            _ => Err(TakeErr::NoSpelling),
        }
    }
}

/// The byte that names the record.
fn kind_of(record: &RedoRecord) -> u8
    ensures { result ≡ record_kind «record».now }
{
    match record {
        RedoRecord::Boot(_) => 1,
        RedoRecord::Table(_) => 2,
        RedoRecord::Link(_) => 3,
        RedoRecord::Synonym(_) => 4,
        RedoRecord::Param(_) => 5,
        RedoRecord::Sealed(_) => 6,
        RedoRecord::Decided(_) => 7,
        RedoRecord::Ended { .. } => 8,
        RedoRecord::Forced { .. } => 9,
        RedoRecord::Met { .. } => 10,
        RedoRecord::Forgot(_) => 11,
        RedoRecord::Hidden(_) => 12,
        RedoRecord::Image(_) => 13,
    }
}
