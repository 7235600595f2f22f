//! Writes the fields of each kind of record.
ghost use Rattle.std.specs.Prelude.{◌≡◌, ◌++◌, OnOk};
ghost use Rattle.std.specs.Io.{StartsWith};
ghost use Rattle.redo_codec.specs.Record.{ended_format, outcome_format, record_kind, record_fields, body_format};

use crate::decision::DecisionField;
use crate::kept::{DecidedField, SealedField};
use crate::param::ParamField;
use byte_format::{Field, put_flag, put_u32};
use field_codec::{LinkField, SynonymField, TableField, put_branch};
use redo_record::{Decision, RedoRecord};
use std::alloc::AllocError;
use tran_ids::BranchId;

/// Writes a branch and a decision. Fails where memory runs out.
fn put_ended(out: &mut Vec<u8>, me: &BranchId, decision: &Decision) -> Result<(), AllocError>
    requires { ended_format.Fits (me.now, decision.now) }
    ensures written { OnOk result (out.new.items ≡ out.old.items ++ ended_format.text (me.now, decision.now)) }
    ensures kept { StartsWith out.new.items out.old.items }
{
    put_branch(out, me)?;
    DecisionField::put_into(out, decision)
}

/// Writes a branch, a decision and a flag. Fails where memory runs out.
fn put_outcome(
    out: &mut Vec<u8>,
    me: &BranchId,
    decision: &Decision,
    is_set: bool,
) -> Result<(), AllocError>
    requires { outcome_format.Fits (me.now, (decision.now, is_set)) }
    ensures written { OnOk result (out.new.items ≡ out.old.items ++ outcome_format.text (me.now, (decision.now, is_set))) }
    ensures kept { StartsWith out.new.items out.old.items }
{
    put_branch(out, me)?;
    DecisionField::put_into(out, decision)?;
    put_flag(out, is_set)
}

/// Writes the fields of the record. Fails where memory runs out.
pub(crate) fn put_fields(out: &mut Vec<u8>, record: &RedoRecord) -> Result<(), AllocError>
    requires { body_format.Fits «record».now }
    ensures written { OnOk result (out.new.items ≡ out.old.items ++ (record_fields (record_kind «record».now)).text «record».now) }
    ensures kept { StartsWith out.new.items out.old.items }
{
    match record {
        RedoRecord::Boot(boot) => put_u32(out, *boot),
        RedoRecord::Table(table) => TableField::put_into(out, table),
        RedoRecord::Link(link) => LinkField::put_into(out, link),
        RedoRecord::Synonym(synonym) => SynonymField::put_into(out, synonym),
        RedoRecord::Param(param) => ParamField::put_into(out, param),
        RedoRecord::Sealed(sealed) => SealedField::put_into(out, sealed),
        RedoRecord::Decided(decided) => DecidedField::put_into(out, decided),
        RedoRecord::Ended { me, decision } => put_ended(out, me, decision),
        RedoRecord::Forced {
            me,
            decision,
            given,
        } => put_outcome(out, me, decision, *given),
        RedoRecord::Met {
            me,
            decision,
            mixed,
        } => put_outcome(out, me, decision, *mixed),
        RedoRecord::Forgot(me) => put_branch(out, me),
        RedoRecord::Hidden(me) => put_branch(out, me),
        RedoRecord::Image(_) => unreachable!(),
    }
}
