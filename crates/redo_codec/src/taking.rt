//! Takes the fields of each kind of record. Each call fails with `NoSpelling` exactly where the fields are not at the
//! front, and with `NoMemory` where memory runs out.
ghost use Rattle.std.specs.Prelude.{◌≡◌};
ghost use Rattle.byte_format.specs.Number.{number32};
ghost use Rattle.byte_format.specs.Part.{mapped_at};
ghost use Rattle.byte_format.specs.Reads.{ReadsInMemory};
ghost use Rattle.field_codec.specs.Branch.{branch_format};
ghost use Rattle.field_codec.specs.Table.{table_format, link_format, synonym_format};
ghost use Rattle.redo_codec.specs.Sealed.{sealed_format, decided_format};
ghost use Rattle.redo_codec.specs.Record.{param_format, ended_format, outcome_format, record_fields};

use crate::decision::DecisionField;
use crate::kept::{DecidedField, SealedField};
use crate::param::ParamField;
use byte_format::{Field, TakeErr, take_flag, take_u32};
use field_codec::{BranchField, LinkField, SynonymField, TableField};
use redo_record::RedoRecord;
use std::alloc::Global;

/// The record of this kind whose fields are at the front, and the bytes after them.
pub(crate) fn take_fields(
    alloc: Global,
    kind: u8,
    bytes: &[u8],
) -> Result<(RedoRecord, &[u8]), TakeErr>
    ensures { ReadsInMemory (λ x. (x.0, x.1.now)) result ((record_fields kind).read bytes.now) }
{
    match kind {
        1 => take_boot(bytes),
        2 => take_table(alloc, bytes),
        3 => take_link(alloc, bytes),
        4 => take_synonym(alloc, bytes),
        5 => take_param(alloc, bytes),
        6 => take_sealed(alloc, bytes),
        7 => take_decided(alloc, bytes),
        8 => take_ended(alloc, bytes),
        9 => take_forced(alloc, bytes),
        10 => take_met(alloc, bytes),
        11 => take_forgot(alloc, bytes),
        12 => take_hidden(alloc, bytes),
        _ => Err(TakeErr::NoSpelling),
    }
}

/// The number of a start.
fn take_boot(bytes: &[u8]) -> Result<(RedoRecord, &[u8]), TakeErr>
    ensures { ReadsInMemory (λ x. (x.0, x.1.now)) result (mapped_at RedoRecord.Boot number32.read bytes.now) }
{
    let (boot, rest) = take_u32(bytes)?;
    Ok((RedoRecord::Boot(boot), rest))
}

/// A table that was made.
fn take_table(alloc: Global, bytes: &[u8]) -> Result<(RedoRecord, &[u8]), TakeErr>
    ensures { ReadsInMemory (λ x. (x.0, x.1.now)) result (mapped_at RedoRecord.Table table_format.read bytes.now) }
{
    let (table, rest) = TableField::take_from(alloc, bytes)?;
    Ok((RedoRecord::Table(table), rest))
}

/// A link that was made.
fn take_link(alloc: Global, bytes: &[u8]) -> Result<(RedoRecord, &[u8]), TakeErr>
    ensures { ReadsInMemory (λ x. (x.0, x.1.now)) result (mapped_at RedoRecord.Link link_format.read bytes.now) }
{
    let (link, rest) = LinkField::take_from(alloc, bytes)?;
    Ok((RedoRecord::Link(link), rest))
}

/// A synonym that was made.
fn take_synonym(alloc: Global, bytes: &[u8]) -> Result<(RedoRecord, &[u8]), TakeErr>
    ensures { ReadsInMemory (λ x. (x.0, x.1.now)) result (mapped_at RedoRecord.Synonym synonym_format.read bytes.now) }
{
    let (synonym, rest) = SynonymField::take_from(alloc, bytes)?;
    Ok((RedoRecord::Synonym(synonym), rest))
}

/// A setting.
fn take_param(alloc: Global, bytes: &[u8]) -> Result<(RedoRecord, &[u8]), TakeErr>
    ensures { ReadsInMemory (λ x. (x.0, x.1.now)) result (mapped_at RedoRecord.Param param_format.read bytes.now) }
{
    let (param, rest) = ParamField::take_from(alloc, bytes)?;
    Ok((RedoRecord::Param(param), rest))
}

/// A prepared branch.
fn take_sealed(alloc: Global, bytes: &[u8]) -> Result<(RedoRecord, &[u8]), TakeErr>
    ensures { ReadsInMemory (λ x. (x.0, x.1.now)) result (mapped_at RedoRecord.Sealed sealed_format.read bytes.now) }
{
    let (sealed, rest) = SealedField::take_from(alloc, bytes)?;
    Ok((RedoRecord::Sealed(sealed), rest))
}

/// A decided branch.
fn take_decided(alloc: Global, bytes: &[u8]) -> Result<(RedoRecord, &[u8]), TakeErr>
    ensures { ReadsInMemory (λ x. (x.0, x.1.now)) result (mapped_at RedoRecord.Decided decided_format.read bytes.now) }
{
    let (decided, rest) = DecidedField::take_from(alloc, bytes)?;
    Ok((RedoRecord::Decided(decided), rest))
}

/// A branch that was forgotten.
fn take_forgot(alloc: Global, bytes: &[u8]) -> Result<(RedoRecord, &[u8]), TakeErr>
    ensures { ReadsInMemory (λ x. (x.0, x.1.now)) result (mapped_at RedoRecord.Forgot branch_format.read bytes.now) }
{
    let (me, rest) = BranchField::take_from(alloc, bytes)?;
    Ok((RedoRecord::Forgot(me), rest))
}

/// A branch that was hidden.
fn take_hidden(alloc: Global, bytes: &[u8]) -> Result<(RedoRecord, &[u8]), TakeErr>
    ensures { ReadsInMemory (λ x. (x.0, x.1.now)) result (mapped_at RedoRecord.Hidden branch_format.read bytes.now) }
{
    let (me, rest) = BranchField::take_from(alloc, bytes)?;
    Ok((RedoRecord::Hidden(me), rest))
}

/// A branch that ended, and how.
fn take_ended(alloc: Global, bytes: &[u8]) -> Result<(RedoRecord, &[u8]), TakeErr>
    ensures { ReadsInMemory (λ x. (x.0, x.1.now)) result
        (mapped_at (λ x. RedoRecord.Ended x.0 x.1) ended_format.read bytes.now) }
{
    let (me, rest) = BranchField::take_from(alloc, bytes)?;
    let (decision, rest) = DecisionField::take_from(alloc, rest)?;
    Ok((RedoRecord::Ended { me, decision }, rest))
}

/// A branch that was forced, how, and whether the SCN was given.
fn take_forced(alloc: Global, bytes: &[u8]) -> Result<(RedoRecord, &[u8]), TakeErr>
    ensures { ReadsInMemory (λ x. (x.0, x.1.now)) result
        (mapped_at (λ x. RedoRecord.Forced x.0 x.1.0 x.1.1) outcome_format.read bytes.now) }
{
    let (me, rest) = BranchField::take_from(alloc, bytes)?;
    let (decision, rest) = DecisionField::take_from(alloc, rest)?;
    let (given, rest) = take_flag(rest)?;
    let record = RedoRecord::Forced {
        me,
        decision,
        given,
    };
    Ok((record, rest))
}

/// A forced branch that met its decision, which it was, and whether the outcomes differ.
fn take_met(alloc: Global, bytes: &[u8]) -> Result<(RedoRecord, &[u8]), TakeErr>
    ensures { ReadsInMemory (λ x. (x.0, x.1.now)) result
        (mapped_at (λ x. RedoRecord.Met x.0 x.1.0 x.1.1) outcome_format.read bytes.now) }
{
    let (me, rest) = BranchField::take_from(alloc, bytes)?;
    let (decision, rest) = DecisionField::take_from(alloc, rest)?;
    let (mixed, rest) = take_flag(rest)?;
    let record = RedoRecord::Met {
        me,
        decision,
        mixed,
    };
    Ok((record, rest))
}
