//! The records of a log's bodies.
ghost use Rattle.std.specs.Prelude.{◌≡◌, List, IfOk};
ghost use Rattle.redo_record.specs.declared.record.RedoRecord.{RedoRecord};
ghost use Rattle.byte_format.specs.Format.{IsSpelling};
ghost use Rattle.redo_codec.specs.Record.{record_format};
ghost use Rattle.record_log.specs.Records.{AreBodiesOf};

use dtx_values::Listing;
use redo_codec::{DecodeErr, decode, records_are_exact};
use redo_log::Bodies;
use redo_record::RedoRecord;
use std::alloc::{AllocError, Global};

/// Records in the order in which they were appended.
pub type Records = Listing<RedoRecord>;

/// The record of a body, which has to be one's. Fails where memory runs out.
fn read(alloc: Global, body: &[u8]) -> Result<RedoRecord, AllocError>
    requires { (r : RedoRecord) × IsSpelling record_format body.now r }
    ensures { IfOk result (λ r. IsSpelling record_format body.now r) }
{
    match decode(alloc, body) {
        Ok(redo) => Ok(redo),
        Err(DecodeErr::NoMemory) => Err(AllocError),
        Err(DecodeErr::NotARecord) => unreachable!(),
    }
}

/// The records of these bodies, each of which has to be one's. Fails where memory runs out.
#[tactic(auto, using(crate::proofs::Held::records_read))]
pub(crate) fn records(alloc: Global, bodies: &Bodies) -> Result<Records, AllocError>
    requires { (rs : List RedoRecord) × AreBodiesOf rs bodies.now }
    ensures { IfOk result (λ found. (rs : List RedoRecord) → AreBodiesOf rs bodies.now → found ≡ rs) }
{
    let mut found = Vec::new(alloc);
    for i in 0..bodies.len() {
        found.push(read(alloc, bodies.at(i))?)?;
    }
    records_are_exact();
    Ok(Listing::of(found))
}
