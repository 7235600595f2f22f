//! Writes numbers, flags and runs at the end of some bytes.
ghost use Rattle.std.specs.Prelude.{◌≡◌, ◌++◌, ◌<◌, ◌^◌, length, OnOk};
ghost use Rattle.std.specs.Io.{StartsWith};
ghost use Rattle.byte_format.specs.Number.{number8, number16, number32, number48, number64, signed64, flag};
ghost use Rattle.byte_format.specs.Part.{run};

use std::alloc::AllocError;

/// Writes one byte. Fails where memory runs out.
pub fn put_u8(out: &mut Vec<u8>, number: u8) -> Result<(), AllocError>
    ensures written { OnOk result (out.new.items ≡ out.old.items ++ number8.text number) }
    ensures kept { StartsWith out.new.items out.old.items }
{
    out.push(number)?;
    Ok(())
}

/// Writes two bytes, most significant first. Fails where memory runs out.
pub fn put_u16(out: &mut Vec<u8>, number: u16) -> Result<(), AllocError>
    ensures written { OnOk result (out.new.items ≡ out.old.items ++ number16.text number) }
    ensures kept { StartsWith out.new.items out.old.items }
{
    out.extend_from_slice(&number.to_be_bytes())
}

/// Writes four bytes, most significant first. Fails where memory runs out.
pub fn put_u32(out: &mut Vec<u8>, number: u32) -> Result<(), AllocError>
    ensures written { OnOk result (out.new.items ≡ out.old.items ++ number32.text number) }
    ensures kept { StartsWith out.new.items out.old.items }
{
    out.extend_from_slice(&number.to_be_bytes())
}

/// Writes six bytes, most significant first. Fails where memory runs out.
pub fn put_u48(out: &mut Vec<u8>, number: u64) -> Result<(), AllocError>
    requires { number < 2 ^ 48 }
    ensures written { OnOk result (out.new.items ≡ out.old.items ++ number48.text number) }
    ensures kept { StartsWith out.new.items out.old.items }
{
    out.extend_from_slice(&number.to_be_bytes()[2..])
}

/// Writes eight bytes, most significant first. Fails where memory runs out.
pub fn put_u64(out: &mut Vec<u8>, number: u64) -> Result<(), AllocError>
    ensures written { OnOk result (out.new.items ≡ out.old.items ++ number64.text number) }
    ensures kept { StartsWith out.new.items out.old.items }
{
    out.extend_from_slice(&number.to_be_bytes())
}

/// Writes eight bytes in two's complement, most significant first. Fails where memory runs out.
pub fn put_i64(out: &mut Vec<u8>, number: i64) -> Result<(), AllocError>
    ensures written { OnOk result (out.new.items ≡ out.old.items ++ signed64.text number) }
    ensures kept { StartsWith out.new.items out.old.items }
{
    out.extend_from_slice(&number.to_be_bytes())
}

/// Writes 1 for true and 0 for false. Fails where memory runs out.
pub fn put_flag(out: &mut Vec<u8>, is_set: bool) -> Result<(), AllocError>
    ensures written { OnOk result (out.new.items ≡ out.old.items ++ flag.text is_set) }
    ensures kept { StartsWith out.new.items out.old.items }
{
    put_u8(out, if is_set { 1 } else { 0 })
}

/// Writes how many bytes the run has, as one byte, and the run. Fails where memory runs out.
pub fn put_run_u8(out: &mut Vec<u8>, bytes: &[u8]) -> Result<(), AllocError>
    requires { length bytes.now < 2 ^ 8 }
    ensures written { OnOk result (out.new.items ≡ out.old.items ++ (run number8).text bytes.now) }
    ensures kept { StartsWith out.new.items out.old.items }
{
    put_u8(out, bytes.len() as u8)?;
    out.extend_from_slice(bytes)
}

/// Writes how many bytes the run has, as two bytes, and the run. Fails where memory runs out.
pub fn put_run_u16(out: &mut Vec<u8>, bytes: &[u8]) -> Result<(), AllocError>
    requires { length bytes.now < 2 ^ 16 }
    ensures written { OnOk result (out.new.items ≡ out.old.items ++ (run number16).text bytes.now) }
    ensures kept { StartsWith out.new.items out.old.items }
{
    put_u16(out, bytes.len() as u16)?;
    out.extend_from_slice(bytes)
}

/// Writes how many bytes the run has, as four bytes, and the run. Fails where memory runs out.
pub fn put_run_u32(out: &mut Vec<u8>, bytes: &[u8]) -> Result<(), AllocError>
    requires { length bytes.now < 2 ^ 32 }
    ensures written { OnOk result (out.new.items ≡ out.old.items ++ (run number32).text bytes.now) }
    ensures kept { StartsWith out.new.items out.old.items }
{
    put_u32(out, bytes.len() as u32)?;
    out.extend_from_slice(bytes)
}
