//! The answer lines of a run, those of SHOW DISK with the bytes that were shown.
ghost use Rattle.std.specs.Prelude.{◌≡◌, ◌==◌, ◌&&◌, ℕ, false, map};
ghost use Rattle.world_parts.specs.Shown.{IsOnce, disk_reported, is_place as is_place_by, places_in, shown_at};

use crate::disks_shown::DisksShown;
use book::{AnswerLine, AnswerLines, Said};
use dtx_values::{Listing, Notice};

// Whether this stands for the bytes of a disk.
fn is_place(said: &Said) -> bool
    ensures { result ≡ is_place_by said.now }
{
    match said {
        Said::World(Notice::Shown(lines)) => lines.as_slice().is_empty(),
        _ => false,
    }
}

// The line of SHOW DISK gets what its command has shown.
fn put_disk(shown: &mut DisksShown, line: &mut AnswerLine)
    ensures told { line.new ≡ disk_reported shown.old line.old }
    ensures others { (c : ℕ) → (is_place_by line.old.said && (line.old.command == c)) ≡ false → shown_at shown.new c ≡ shown_at shown.old c }
{
    if !is_place(&line.said) {
        return;
    }
    if let Some(lines) = shown.take(line.command) {
        line.said = Said::World(Notice::Shown(lines));
    }
}

/// The lines, those of SHOW DISK with what its commands have shown.
pub fn with_disks(shown: &mut DisksShown, lines: AnswerLines) -> AnswerLines
    requires { IsOnce (places_in lines) }
    ensures { result ≡ map (disk_reported shown.old) lines }
{
    let mut lines = lines.into_vec();
    for line in lines.iter_mut() {
        put_disk(shown, line);
    }
    Listing::of(lines)
}
