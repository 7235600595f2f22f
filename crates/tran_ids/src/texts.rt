//! The texts of ids: the local id of a branch, and the global id of a transaction, which names its root.
ghost use Rattle.std.specs.Prelude.{◌≡◌, ◌<◌, ◌++◌, IfOk, OnOk};
ghost use Rattle.std.specs.Io.{StartsWith};
ghost use Rattle.tran_ids.specs.Numbers.{decimal, hex8, hex_digit as hex_digit_of};
ghost use Rattle.tran_ids.specs.Texts.{local_text as local_text_of, name_of, global_text as global_text_of};

use crate::BranchId;
use dtx_values::{Bytes, Listing, Name};
use itoa::Buffer;
use std::alloc::{AllocError, Global};

// A number in decimal.
#[tactic(auto, using(crate::proofs::NumberLemmas::decimal_is))]
fn written(buffer: &mut Buffer, number: u64) -> &[u8]
    ensures { result.now ≡ decimal number }
{
    buffer.format(number).as_bytes()
}

/// Adds a number in decimal at the end. Fails where memory runs out; what was there is still in front then.
pub fn put_decimal(out: &mut Vec<u8>, number: u64) -> Result<(), AllocError>
    ensures added { OnOk result (out.new.items ≡ out.old.items ++ decimal number) }
    ensures kept { StartsWith out.new.items out.old.items }
{
    out.extend_from_slice(written(&mut Buffer::new(), number))
}

/// Adds the local id of a branch: its boot, session and seq in decimal, joined by dots, such as `1.65.1`. Fails where
/// memory runs out; a part may have been added then, behind what was there.
pub fn put_local(out: &mut Vec<u8>, id: &BranchId) -> Result<(), AllocError>
    ensures added { OnOk result (out.new.items ≡ out.old.items ++ local_text_of id.now) }
    ensures kept { StartsWith out.new.items out.old.items }
{
    put_decimal(out, u64::from(id.boot))?;
    out.push(b'.')?;
    put_decimal(out, u64::from(id.session))?;
    out.push(b'.')?;
    put_decimal(out, u64::from(id.seq))
}

/// The local id of a branch: its boot, session and seq in decimal, joined by dots, such as `1.65.1`. Fails where
/// memory runs out.
pub fn local_text(alloc: Global, id: &BranchId) -> Result<Bytes, AllocError>
    ensures { IfOk result (λ text. text ≡ local_text_of id.now) }
{
    let mut text = Vec::new(alloc);
    put_local(&mut text, id)?;
    Ok(Listing::of(text))
}

/// The name of the node of this number, where the names are those of all nodes in the order of their numbers; empty
/// for a number past them.
pub fn node_name(names: &[Name], node: u8) -> &[u8]
    ensures { result.now ≡ name_of names.now node }
{
    match names.get(usize::from(node).saturating_sub(1)) {
        None => &[],
        Some(name) => name.as_bytes(),
    }
}

/// Adds the global id of the transaction with this root: the name of the root's node, its number in eight hexadecimal
/// digits, and the root's local id, such as `HQ.00000001.1.2.1`. Fails where memory runs out; a part may have been
/// added then, behind what was there.
pub fn put_global(out: &mut Vec<u8>, names: &[Name], root: &BranchId) -> Result<(), AllocError>
    ensures added { OnOk result (out.new.items ≡ out.old.items ++ global_text_of names.now root.now) }
    ensures kept { StartsWith out.new.items out.old.items }
{
    out.extend_from_slice(node_name(names, root.node))?;
    out.push(b'.')?;
    out.extend_from_slice(&node_digits(root.node))?;
    out.push(b'.')?;
    put_local(out, root)
}

/// The global id of the transaction with this root, such as `HQ.00000001.1.2.1`. Fails where memory runs out.
pub fn global_text(alloc: Global, names: &[Name], root: &BranchId) -> Result<Bytes, AllocError>
    ensures { IfOk result (λ text. text ≡ global_text_of names.now root.now) }
{
    let mut text = Vec::new(alloc);
    put_global(&mut text, names, root)?;
    Ok(Listing::of(text))
}

// A node's number as eight hexadecimal digits. It is a byte, so all but the last two are 0.
#[tactic(auto, using(crate::proofs::NumberLemmas::byte_is))]
fn node_digits(node: u8) -> [u8; 8]
    ensures { result ≡ hex8 node }
{
    let (high, low) = (hex_digit(node / 16), hex_digit(node % 16));
    [b'0', b'0', b'0', b'0', b'0', b'0', high, low]
}

/// One hexadecimal digit, in lower case.
pub fn hex_digit(digit: u8) -> u8
    requires { digit < 16 }
    ensures { result ≡ hex_digit_of digit }
{
    if digit < 10 {
        b'0' + digit
    } else {
        b'a' - 10 + digit
    }
}
