//! Lines with the number of their command in front.
ghost use Rattle.std.specs.Prelude.{◌≡◌, ◌++◌, map, OnOk};
ghost use Rattle.std.specs.Io.{StartsWith};
ghost use Rattle.book.specs.Texts.{ended_line};
ghost use Rattle.report.specs.Report.{numbered, printed};

use dtx_values::Bytes;
use std::alloc::AllocError;
use tran_ids::put_decimal;

fn put_line(out: &mut Vec<u8>, command: u32, line: &[u8]) -> Result<(), AllocError>
    ensures added { OnOk result (out.new.items ≡ out.old.items ++ ended_line (numbered command line.now)) }
    ensures kept { StartsWith out.new.items out.old.items }
{
    put_decimal(out, u64::from(command))?;
    out.push(b' ')?;
    out.extend_from_slice(line)?;
    out.push(b'\n')?;
    Ok(())
}

/// Adds the lines at the end, each with the command's number and a blank in front and a line feed after it. Fails where
/// memory runs out; a part may have been added then, behind what was there.
pub fn put_numbered(out: &mut Vec<u8>, command: u32, lines: &[Bytes]) -> Result<(), AllocError>
    ensures added { OnOk result (out.new.items ≡ out.old.items ++ printed (map (numbered command) lines.now)) }
    ensures kept { StartsWith out.new.items out.old.items }
{
    for line in lines {
        put_line(out, command, line.as_slice())?;
    }
    Ok(())
}
