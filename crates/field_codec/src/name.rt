//! The bytes of names.
ghost use Rattle.std.specs.Prelude.{◌≡◌, ◌++◌, true, false, IfOk, IsErrOf, OnOk};
ghost use Rattle.std.specs.Io.{StartsWith};
ghost use Rattle.byte_format.specs.Format.{IsFront, HasNoFront};
ghost use Rattle.field_codec.specs.Name.{is_own_name, name_format};

use byte_format::{Field, TakeErr, put_run_u8, read_front, take_run_u8};
use dtx_values::{Name, NameErr};
use std::alloc::{AllocError, Global};

/// A name, in upper case, after its length of one byte.
pub struct NameField;

impl Field for NameField {
    type Value = Name;

    ghost format = { name_format };

    fn put_into(out: &mut Vec<u8>, name: &Name) -> Result<(), AllocError> {
        put_name(out, name)
    }

    fn take_from(alloc: Global, bytes: &[u8]) -> Result<(Name, &[u8]), TakeErr> {
        let (text, rest) = take_run_u8(bytes)?;
        let name = own_name(alloc, text)?;
        Ok((name, rest))
    }
}

/// The name that these bytes are. Fails with `NoSpelling` exactly where they are no name in upper case, and with
/// `NoMemory` where memory runs out.
fn own_name(alloc: Global, text: &[u8]) -> Result<Name, TakeErr>
    ensures found { IfOk result (λ name. (is_own_name text.now ≡ true) × (name ≡ text.now)) }
    ensures refused { IsErrOf result TakeErr.NoSpelling → is_own_name text.now ≡ false }
{
    match Name::from_bytes(alloc, text) {
        Ok(name) => {
            if name.as_bytes() == text {
                Ok(name)
            } else {
                Err(TakeErr::NoSpelling)
            }
        }
        Err(NameErr::Bad) => Err(TakeErr::NoSpelling),
        Err(NameErr::NoMemory) => Err(TakeErr::NoMemory),
    }
}

/// Writes the name's spelling at the end. Fails where memory runs out.
pub fn put_name(out: &mut Vec<u8>, name: &Name) -> Result<(), AllocError>
    ensures written { OnOk result (out.new.items ≡ out.old.items ++ name_format.text name.now) }
    ensures kept { StartsWith out.new.items out.old.items }
{
    put_run_u8(out, name.as_bytes())
}

/// The name whose spelling is at the front, and the bytes after it. Fails with `NoSpelling`
/// exactly where none is there, and with `NoMemory` where memory runs out.
pub fn take_name(alloc: Global, bytes: &[u8]) -> Result<(Name, &[u8]), TakeErr>
    ensures found { IfOk result (λ x. IsFront name_format bytes.now x.0 x.1.now) }
    ensures refused { IsErrOf result TakeErr.NoSpelling → HasNoFront name_format bytes.now }
{
    read_front::<NameField>(alloc, bytes)
}
