//! The bodies of records.
ghost use Rattle.std.specs.Prelude.{◌≡◌, IfOk, IsErrOf};
ghost use Rattle.redo_record.specs.declared.record.RedoRecord.{RedoRecord};
ghost use Rattle.byte_format.specs.Format.{IsSpelling};
ghost use Rattle.redo_codec.specs.Record.{record_format};

use crate::DecodeErr;
use crate::record::RecordField;
use byte_format::{TakeErr, read_whole, write_whole};
use dtx_values::Bytes;
use redo_record::RedoRecord;
use std::alloc::{AllocError, Global};

/// The body of the record, which has to have a spelling. Fails where memory runs out.
pub fn encode(alloc: Global, record: &RedoRecord) -> Result<Bytes, AllocError>
    requires { record_format.Fits «record».now }
    ensures { IfOk result (λ body. IsSpelling record_format body «record».now) }
{
    Ok(Bytes::of(write_whole::<RecordField>(alloc, record)?))
}

/// Why no record is made of bytes that were not read as one.
fn decode_err(err: TakeErr) -> DecodeErr
    ensures none { result ≡ DecodeErr.NotARecord → err ≡ TakeErr.NoSpelling }
    ensures memory { result ≡ DecodeErr.NoMemory → err ≡ TakeErr.NoMemory }
{
    match err {
        TakeErr::NoSpelling => DecodeErr::NotARecord,
        TakeErr::NoMemory => DecodeErr::NoMemory,
    }
}

/// The record whose body this is. Fails with `NotARecord` exactly where this is the body of none, and with `NoMemory`
/// where memory runs out.
pub fn decode(alloc: Global, body: &[u8]) -> Result<RedoRecord, DecodeErr>
    ensures found { IfOk result (λ r. IsSpelling record_format body.now r) }
    ensures refused { IsErrOf result DecodeErr.NotARecord → (r : RedoRecord) → IsSpelling record_format body.now r → ⊥ }
{
    match read_whole::<RecordField>(alloc, body) {
        Ok(record) => Ok(record),
        Err(err) => Err(decode_err(err)),
    }
}
