//! The bytes of a disk as SHOW DISK prints them.
ghost use Rattle.std.specs.Prelude.{◌≡◌, IfOk};
ghost use Rattle.run_rules.specs.Shown.{shown_disk};

use dtx_values::{Listing, Texts};
use report::byte_lines;
use std::alloc::{AllocError, Global};

/// The lines of a disk's bytes, or a word where there are none.
pub fn disk_lines(alloc: Global, bytes: &[u8]) -> Result<Texts, AllocError>
    ensures { IfOk result (λ lines. lines ≡ shown_disk bytes.now) }
{
    if bytes.is_empty() {
        let none = Listing::of(Vec::from_slice(alloc, b"empty")?);
        return Ok(Listing::of(vec![in alloc; none]?));
    }
    Ok(Listing::of(byte_lines(alloc, bytes)?))
}
