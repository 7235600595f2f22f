//! What SHOW DISK has shown.
ghost use Rattle.std.specs.Prelude.{◌≡◌, ◌==◌, ℕ, [], if◌then◌else◌, false, Some, OnOk, OnErr};
ghost use Rattle.world_parts.specs.Shown.{shown_at};

use dtx_values::Texts;
use indexmap::IndexMap;
use std::alloc::{AllocError, Global};
use std::marker::Model;

/// The lines of the disks that were shown, by the numbers of their commands.
#[derive(Drop)]
pub struct DisksShown {
    lines: IndexMap<u32, Texts>,
}

impl Model for DisksShown {
    ghost use Rattle.std.specs.Prelude.{List, ℕ};

    ghost Value = { List (ℕ × List (List ℕ)) };

    ghost view = { λ s. s.lines.entries };
}

impl DisksShown {
    /// None yet.
    pub fn new(alloc: Global) -> DisksShown
        ensures { result ≡ [] }
    {
        DisksShown {
            lines: IndexMap::new(alloc),
        }
    }

    /// This command has shown these lines. Fails where memory runs out.
    pub fn put(&mut self, command: u32, lines: Texts) -> Result<(), AllocError>
        ensures put { OnOk result ((c : ℕ) → shown_at self.new c ≡ (if command == c then Some lines else shown_at self.old c)) }
        ensures same { OnErr result (self.new ≡ self.old) }
    {
        self.lines.insert(command, lines)?;
        Ok(())
    }

    /// What a command has shown, which is not kept any longer.
    pub fn take(&mut self, command: u32) -> Option<Texts>
        ensures taken { result ≡ shown_at self.old command }
        ensures others { (c : ℕ) → command == c ≡ false → shown_at self.new c ≡ shown_at self.old c }
    {
        self.lines.swap_remove(&command)
    }
}
