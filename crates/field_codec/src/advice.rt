//! The bytes of advice.
ghost use Rattle.std.specs.Prelude.{◌≡◌, ◌++◌, OnOk};
ghost use Rattle.std.specs.Io.{StartsWith};
ghost use Rattle.byte_format.specs.Reads.{ReadsInMemory};
ghost use Rattle.field_codec.specs.Advice.{advice_format};

use byte_format::{Field, TakeErr, put_u8};
use dtx_values::Advice;
use std::alloc::{AllocError, Global};

/// The advice for a branch, if there is one: 0 for none, 1 to commit, 2 to roll back.
pub struct AdviceField;

impl Field for AdviceField {
    type Value = Option<Advice>;

    ghost format = { advice_format };

    fn put_into(out: &mut Vec<u8>, advice: &Option<Advice>) -> Result<(), AllocError> {
        match advice {
            None => put_u8(out, 0),
            Some(Advice::Commit) => put_u8(out, 1),
            Some(Advice::Rollback) => put_u8(out, 2),
        }
    }

    fn take_from(_alloc: Global, bytes: &[u8]) -> Result<(Option<Advice>, &[u8]), TakeErr> {
        match bytes {
            [0, rest @ ..] => Ok((None, rest)),
            [1, rest @ ..] => Ok((Some(Advice::Commit), rest)),
            [2, rest @ ..] => Ok((Some(Advice::Rollback), rest)),
            _ => Err(TakeErr::NoSpelling),
        }
    }
}
