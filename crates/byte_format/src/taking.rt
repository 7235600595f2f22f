//! Takes numbers, flags, constants and runs from the front of some bytes. None of these needs memory: a run is lent.
//! Each fails exactly where no spelling is at the front.
ghost use Rattle.std.specs.Prelude.{◌≡◌};
ghost use Rattle.byte_format.specs.Number.{number8, number16, number32, number48, number64, signed64, flag, constant};
ghost use Rattle.byte_format.specs.Part.{run};
ghost use Rattle.byte_format.specs.Reads.{Reads};

use crate::NoSpelling;

/// One byte, and the bytes after it.
pub fn take_u8(bytes: &[u8]) -> Result<(u8, &[u8]), NoSpelling>
    ensures { Reads (λ x. (x.0, x.1.now)) result (number8.read bytes.now) }
{
    match bytes {
        [] => Err(NoSpelling),
        [first, rest @ ..] => Ok((*first, rest)),
    }
}

/// A number of two bytes, most significant first, and the bytes after it.
pub fn take_u16(bytes: &[u8]) -> Result<(u16, &[u8]), NoSpelling>
    ensures { Reads (λ x. (x.0, x.1.now)) result (number16.read bytes.now) }
{
    if bytes.len() < 2 {
        return Err(NoSpelling);
    }
    let (front, rest) = bytes.split_at(2);
    Ok((u16::from_be_bytes([front[0], front[1]]), rest))
}

/// A number of four bytes, most significant first, and the bytes after it.
pub fn take_u32(bytes: &[u8]) -> Result<(u32, &[u8]), NoSpelling>
    ensures { Reads (λ x. (x.0, x.1.now)) result (number32.read bytes.now) }
{
    if bytes.len() < 4 {
        return Err(NoSpelling);
    }
    let (front, rest) = bytes.split_at(4);
    Ok((
        u32::from_be_bytes([front[0], front[1], front[2], front[3]]),
        rest,
    ))
}

/// A number of six bytes, most significant first, and the bytes after it.
pub fn take_u48(bytes: &[u8]) -> Result<(u64, &[u8]), NoSpelling>
    ensures { Reads (λ x. (x.0, x.1.now)) result (number48.read bytes.now) }
{
    if bytes.len() < 6 {
        return Err(NoSpelling);
    }
    let (front, rest) = bytes.split_at(6);
    let number = u64::from_be_bytes([
        0, 0, front[0], front[1], front[2], front[3], front[4], front[5],
    ]);
    Ok((number, rest))
}

/// A number of eight bytes, most significant first, and the bytes after it.
pub fn take_u64(bytes: &[u8]) -> Result<(u64, &[u8]), NoSpelling>
    ensures { Reads (λ x. (x.0, x.1.now)) result (number64.read bytes.now) }
{
    if bytes.len() < 8 {
        return Err(NoSpelling);
    }
    let (front, rest) = bytes.split_at(8);
    let number = u64::from_be_bytes([
        front[0], front[1], front[2], front[3], front[4], front[5], front[6], front[7],
    ]);
    Ok((number, rest))
}

/// A number of eight bytes in two's complement, most significant first, and the bytes after it.
pub fn take_i64(bytes: &[u8]) -> Result<(i64, &[u8]), NoSpelling>
    ensures { Reads (λ x. (x.0, x.1.now)) result (signed64.read bytes.now) }
{
    if bytes.len() < 8 {
        return Err(NoSpelling);
    }
    let (front, rest) = bytes.split_at(8);
    let number = i64::from_be_bytes([
        front[0], front[1], front[2], front[3], front[4], front[5], front[6], front[7],
    ]);
    Ok((number, rest))
}

/// A byte 0 or 1, and the bytes after it.
pub fn take_flag(bytes: &[u8]) -> Result<(bool, &[u8]), NoSpelling>
    ensures { Reads (λ x. (x.0, x.1.now)) result (flag.read bytes.now) }
{
    match bytes {
        [0, rest @ ..] => Ok((false, rest)),
        [1, rest @ ..] => Ok((true, rest)),
        _ => Err(NoSpelling),
    }
}

/// The bytes after these, which have to be at the front.
pub fn take_constant<'a>(bytes: &'a [u8], mark: &[u8]) -> Result<&'a [u8], NoSpelling>
    ensures { Reads (λ rest. (tt, rest.now)) result ((constant mark.now).read bytes.now) }
{
    if !bytes.starts_with(mark) {
        return Err(NoSpelling);
    }
    let (_, rest) = bytes.split_at(mark.len());
    Ok(rest)
}

/// A run of bytes after its length of one byte, and the bytes after it.
pub fn take_run_u8(bytes: &[u8]) -> Result<(&[u8], &[u8]), NoSpelling>
    ensures { Reads (λ x. (x.0.now, x.1.now)) result ((run number8).read bytes.now) }
{
    let (size, rest) = take_u8(bytes)?;
    let size = size as usize;
    if rest.len() < size {
        return Err(NoSpelling);
    }
    Ok(rest.split_at(size))
}

/// A run of bytes after its length of two bytes, and the bytes after it.
pub fn take_run_u16(bytes: &[u8]) -> Result<(&[u8], &[u8]), NoSpelling>
    ensures { Reads (λ x. (x.0.now, x.1.now)) result ((run number16).read bytes.now) }
{
    let (size, rest) = take_u16(bytes)?;
    let size = size as usize;
    if rest.len() < size {
        return Err(NoSpelling);
    }
    Ok(rest.split_at(size))
}

/// A run of bytes after its length of four bytes, and the bytes after it.
pub fn take_run_u32(bytes: &[u8]) -> Result<(&[u8], &[u8]), NoSpelling>
    ensures { Reads (λ x. (x.0.now, x.1.now)) result ((run number32).read bytes.now) }
{
    let (size, rest) = take_u32(bytes)?;
    let size = size as usize;
    if rest.len() < size {
        return Err(NoSpelling);
    }
    Ok(rest.split_at(size))
}
