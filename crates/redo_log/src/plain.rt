//! What plain bytes hold as a log.
ghost use Rattle.std.specs.Prelude.{◌≡◌, length};
ghost use Rattle.std.specs.Option.{option_map, option_copied};
ghost use Rattle.redo_log.specs.Cells.{bodies, numbered_in};

use crate::gate::{Gate, first_gate};

/// How many bodies these bytes hold, or nothing where they are no log.
pub fn count(bytes: &[u8]) -> Option<u64>
    ensures { result ≡ option_map length (bodies bytes.now) }
{
    let mut found = 0;
    let mut rest = bytes;
    'cells: loop {
        match first_gate(rest) {
            Gate::Open { body: _, behind } => {
                found += 1;
                rest = behind;
            }
            Gate::Closed => return Some(found),
            Gate::CutOff => return None,
        }
    }
}

/// The body of a number, counted from 1, where these bytes are a log that holds so many.
pub fn cell(bytes: &[u8], i: u64) -> Option<&[u8]>
    ensures { option_copied result ≡ numbered_in (bodies bytes.now) i }
{
    // A body counts only where the bytes hold a log to its end.
    count(bytes)?;
    if i == 0 {
        return None;
    }
    let mut left = i;
    let mut rest = bytes;
    'cells: loop {
        match first_gate(rest) {
            Gate::Open { body, behind } => {
                if left == 1 {
                    return Some(body);
                }
                left -= 1;
                rest = behind;
            }
            Gate::Closed | Gate::CutOff => return None,
        }
    }
}
