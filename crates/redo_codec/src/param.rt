//! The bytes of settings.
ghost use Rattle.std.specs.Prelude.{◌≡◌, ◌++◌, OnOk};
ghost use Rattle.std.specs.Io.{StartsWith};
ghost use Rattle.byte_format.specs.Part.{mapped_at};
ghost use Rattle.byte_format.specs.Reads.{ReadsInMemory};
ghost use Rattle.redo_codec.specs.Record.{param_format, switch_format, strength_format};

use byte_format::{Field, TakeErr, put_flag, put_u8, take_constant, take_flag, take_u8};
use redo_record::Param;
use std::alloc::{AllocError, Global};

/// A setting: 1 and a switch of four bytes for recovery, or 2 and the commit point strength in four bytes.
pub(crate) struct ParamField;

impl Field for ParamField {
    type Value = Param;

    ghost format = { param_format };

    fn put_into(out: &mut Vec<u8>, param: &Param) -> Result<(), AllocError> {
        match param {
            Param::Recovery(enabled) => {
                put_u8(out, 1)?;
                out.extend_from_slice(&[0, 0, 0])?;
                put_flag(out, *enabled)
            }
            Param::Strength(strength) => {
                put_u8(out, 2)?;
                out.extend_from_slice(&[0, 0, 0])?;
                put_u8(out, *strength)
            }
        }
    }

    fn take_from(_alloc: Global, bytes: &[u8]) -> Result<(Param, &[u8]), TakeErr> {
        let (kind, rest) = take_u8(bytes)?;
        match kind {
            1 => take_switch(rest),
            2 => take_strength(rest),
            _ => Err(TakeErr::NoSpelling),
        }
    }
}

/// Whether recovery is enabled.
fn take_switch(bytes: &[u8]) -> Result<(Param, &[u8]), TakeErr>
    ensures { ReadsInMemory (λ x. (x.0, x.1.now)) result (mapped_at Param.Recovery switch_format.read bytes.now) }
{
    let rest = take_constant(bytes, &[0, 0, 0])?;
    let (enabled, rest) = take_flag(rest)?;
    Ok((Param::Recovery(enabled), rest))
}

/// The commit point strength.
fn take_strength(bytes: &[u8]) -> Result<(Param, &[u8]), TakeErr>
    ensures { ReadsInMemory (λ x. (x.0, x.1.now)) result (mapped_at Param.Strength strength_format.read bytes.now) }
{
    let rest = take_constant(bytes, &[0, 0, 0])?;
    let (strength, rest) = take_u8(rest)?;
    Ok((Param::Strength(strength), rest))
}
