//! The bytes of the state of a kept branch, and of its way to the commit point site.
ghost use Rattle.std.specs.Prelude.{◌≡◌, ◌++◌, OnOk};
ghost use Rattle.std.specs.Io.{StartsWith};
ghost use Rattle.byte_format.specs.Reads.{ReadsInMemory};
ghost use Rattle.redo_codec.specs.Sealed.{toward_at};
ghost use Rattle.image_codec.specs.Kept.{state_format, way_at, way_format};

use byte_format::{Field, TakeErr, put_u8, take_u8};
use redo_record::{KeptState, Toward};
use std::alloc::{AllocError, Global};

/// The number of the commit point site's own way.
const SITE: u8 = 255;

/// The state: 1 prepared, 2 committed, 3 forced to commit, 4 forced to roll back.
pub(crate) struct StateField;

impl Field for StateField {
    type Value = KeptState;

    ghost format = { state_format };

    fn put_into(out: &mut Vec<u8>, state: &KeptState) -> Result<(), AllocError> {
        match state {
            KeptState::Sealed => put_u8(out, 1),
            KeptState::Committed => put_u8(out, 2),
            KeptState::ForcedCommit => put_u8(out, 3),
            KeptState::ForcedRollback => put_u8(out, 4),
        }
    }

    fn take_from(_alloc: Global, bytes: &[u8]) -> Result<(KeptState, &[u8]), TakeErr> {
        match bytes {
            [1, rest @ ..] => Ok((KeptState::Sealed, rest)),
            [2, rest @ ..] => Ok((KeptState::Committed, rest)),
            [3, rest @ ..] => Ok((KeptState::ForcedCommit, rest)),
            [4, rest @ ..] => Ok((KeptState::ForcedRollback, rest)),
            _ => Err(TakeErr::NoSpelling),
        }
    }
}

/// The neighbour on the way to the commit point site: 255 for none, 0 for the parent, and i for the i-th child, from 1.
pub(crate) struct WayField;

impl Field for WayField {
    type Value = Option<Toward>;

    ghost format = { way_format };

    fn put_into(out: &mut Vec<u8>, way: &Option<Toward>) -> Result<(), AllocError> {
        match way {
            None => put_u8(out, SITE),
            Some(Toward::Parent) => put_u8(out, 0),
            Some(Toward::Child(child)) => put_u8(out, *child + 1),
        }
    }

    fn take_from(_alloc: Global, bytes: &[u8]) -> Result<(Option<Toward>, &[u8]), TakeErr> {
        let (number, rest) = take_u8(bytes)?;
        Ok((way_at(number), rest))
    }
}

/// The way that this number stands for.
fn way_at(number: u8) -> Option<Toward>
    ensures { result ≡ way_at number }
{
    if number == SITE {
        None
    } else {
        Some(toward_at(number))
    }
}

/// The neighbour that this number stands for.
fn toward_at(number: u8) -> Toward
    ensures { result ≡ toward_at number }
{
    if number == 0 {
        Toward::Parent
    } else {
        Toward::Child(number - 1)
    }
}
