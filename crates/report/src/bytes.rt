//! Lines of bytes, each with the place of its first byte in front.
ghost use Rattle.std.specs.Prelude.{◌≡◌, ◌*◌, ◌<◌, ◌++◌, length, take, drop, flat_map, IfOk, OnOk};
ghost use Rattle.tran_ids.specs.Numbers.{hex8 as hex8_of};
ghost use Rattle.report.specs.Bytes.{hex2, byte_line as line_of, byte_lines as lines_of};

use dtx_values::{Bytes, Listing};
use std::alloc::{AllocError, Global};
use tran_ids::hex_digit;

/// How many bytes stand in a line.
const LINE: usize = 32;

/// A place as eight hexadecimal digits.
#[tactic(auto, using(crate::proofs::ByteLines::hex8_is))]
fn put_place(out: &mut Vec<u8>, place: usize) -> Result<(), AllocError>
    ensures { OnOk result (out.new.items ≡ out.old.items ++ hex8_of place) }
{
    out.extend_from_slice(&[
        hex_digit((place / 0x1000_0000 % 16) as u8),
        hex_digit((place / 0x100_0000 % 16) as u8),
        hex_digit((place / 0x10_0000 % 16) as u8),
        hex_digit((place / 0x1_0000 % 16) as u8),
        hex_digit((place / 0x1000 % 16) as u8),
        hex_digit((place / 0x100 % 16) as u8),
        hex_digit((place / 0x10 % 16) as u8),
        hex_digit((place % 16) as u8),
    ])
}

/// Bytes as two hexadecimal digits each.
fn put_bytes(out: &mut Vec<u8>, bytes: &[u8]) -> Result<(), AllocError>
    ensures { OnOk result (out.new.items ≡ out.old.items ++ flat_map hex2 bytes.now) }
{
    for byte in bytes {
        out.extend_from_slice(&[hex_digit(byte / 16), hex_digit(byte % 16)])?;
    }
    Ok(())
}

/// The bytes of the line that begins at a place.
#[tactic(auto, using(crate::proofs::ByteLines::bytes_of_line))]
fn line_at(bytes: &[u8], place: usize) -> &[u8]
    requires { place < length bytes.now }
    ensures { result.now ≡ take 32 (drop place bytes.now) }
{
    let (_, rest) = bytes.split_at(place);
    let (line, _) = rest.split_at(LINE.min(rest.len()));
    line
}

/// The line of bytes that begins at a place.
fn byte_line(alloc: Global, bytes: &[u8], place: usize) -> Result<Bytes, AllocError>
    requires { place < length bytes.now }
    ensures { IfOk result (λ line. line ≡ line_of bytes.now place) }
{
    let mut out = Vec::new(alloc);
    put_place(&mut out, place)?;
    out.push(b' ')?;
    put_bytes(&mut out, line_at(bytes, place))?;
    Ok(Listing::of(out))
}

/// A line for each 32 bytes, and one for the rest. Fails where memory runs out.
#[tactic(auto, using(crate::proofs::ByteLines::one_more))]
pub fn byte_lines(alloc: Global, bytes: &[u8]) -> Result<Vec<Bytes>, AllocError>
    ensures { IfOk result (λ lines. lines.items ≡ lines_of bytes.now) }
{
    let mut lines = Vec::new(alloc);
    for i in 0..(bytes.len() + 31) / 32 {
        lines.push(byte_line(alloc, bytes, LINE * i)?)?;
    }
    Ok(lines)
}
