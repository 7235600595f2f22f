//! A source of bytes, and how it is read to its end.
ghost use Rattle.std.specs.Prelude.{◌≤◌, List, ℕ, Option, IfOk, IsErrOf};
ghost use Rattle.std.specs.Io.{ReadsAtMost};
ghost use Rattle.std.specs.Io.KnownBytes.{ReadConsumes};
ghost use Rattle.dtx_ports.specs.Causes.{HasCause};
ghost use Rattle.dtx_ports.specs.Whole.{IsAll, IsTooLong, ReadsWithin, TellsFaults};

use crate::{Failed, ReadErr};
use std::alloc::Global;

/// The most bytes that one call asks for.
const CHUNK: usize = 4096;

/// Where bytes come from, in order, until the end.
pub trait Source {
    /// The bytes that are still to come, where the source tells them.
    ghost left: { Self → Option (List ℕ) };

    /// How many calls have failed: a `u64` that never falls and, once at 2^64 - 1, stays there.
    ghost faults: { Self → ℕ };

    /// Reads the next bytes into the front of the buffer, and returns how many.
    ///
    /// The number is 0 only at the end of the source, or for an empty buffer. At an error nothing was read, and the fault
    /// was counted.
    fn read(&mut self, buffer: &mut [u8]) -> Result<usize, Failed>
        ensures bound { ReadsAtMost result buffer.new }
        ensures bytes { ReadConsumes (left self.old) (left self.new) result buffer.new }
        ensures cause { HasCause (faults self.old) (faults self.new) result };
}

/// Reads a source to its end, which has to come within `limit` bytes.
///
/// It reads one byte past the limit at most, to learn whether the end has come. The error is `Fault` where a read failed,
/// `TooLong` where that one byte was read, and `NoMemory` where there was no memory for the bytes. Only `Fault` follows a
/// fault of the source.
pub fn read_whole<S: Source>(
    alloc: Global,
    source: &mut S,
    limit: usize,
) -> Result<Vec<u8>, ReadErr>
    ensures whole { IfOk result (λ bytes. IsAll limit (S.left source.old) (S.left source.new) bytes.items) }
    ensures faults { TellsFaults (S.faults source.old) (S.faults source.new) result }
    ensures later { S.faults source.old ≤ S.faults source.new }

    // More than the limit is read exactly where the answer is TooLong.
    ensures too_long { IsErrOf result ReadErr.TooLong → IsTooLong limit (S.left source.old) (S.left source.new) }
    ensures fault_within { IsErrOf result ReadErr.Fault → ReadsWithin limit (S.left source.old) (S.left source.new) }
    ensures no_memory_within { IsErrOf result ReadErr.NoMemory → ReadsWithin limit (S.left source.old) (S.left source.new) }
{
    let mut bytes = Vec::new(alloc);
    let mut buffer = [0u8; CHUNK];
    loop {
        let room = limit - bytes.len();
        let asked = room.saturating_add(1).min(CHUNK);
        let count = source.read(&mut buffer[..asked])?;
        if count == 0 {
            return Ok(bytes);
        }
        // Tested before anything is stored: a text that is too long is never reported as out of memory.
        if count > room {
            return Err(ReadErr::TooLong);
        }
        bytes.extend_from_slice(&buffer[..count])?;
    }
}
