//! What a branch keeps of its notes and savepoints when it goes back to a step.
ghost use Rattle.std.specs.Prelude.{◌≡◌, ◌≤◌, ◌^◌, filter, nat_le, IfSome, IsNone};
ghost use Rattle.std.specs.List.{list_any};
ghost use Rattle.savepoints.specs.Marks.{back_to, is_key, is_until, sets_behind};

use crate::{Marks, Note, RowKey, Savepoint};
use dtx_values::{Listing, Name, Value, same_value};
use std::alloc::Global;
use std::mem;

impl Marks {
    /// How many lists of changes were made in later steps. Nothing where 32 bits count no further.
    pub fn sets_behind(&self, step: u32) -> Option<u32>
        ensures sets { IfSome result (λ sets. sets ≡ sets_behind self.now step) }
        ensures none { IsNone result → 2 ^ 32 ≤ sets_behind self.now step }
    {
        let mut sets: u32 = 0;
        for note in self.notes.as_slice() {
            if note.step > step {
                sets = sets.checked_add(note.sets)?;
            }
        }
        Some(sets)
    }

    /// Later notes and later savepoints are dropped.
    pub fn go_back(&mut self, alloc: Global, step: u32)
        ensures { self.new ≡ back_to self.old step }
    {
        let mut notes = mem::replace(&mut self.notes, Listing::new(alloc)).into_vec();
        keep_notes(&mut notes, step);
        self.notes = Listing::of(notes);
        let mut savepoints = mem::replace(&mut self.savepoints, Listing::new(alloc)).into_vec();
        keep_savepoints(&mut savepoints, step);
        self.savepoints = Listing::of(savepoints);
    }
}

// Notes of later steps are dropped.
fn keep_notes(notes: &mut Vec<Note>, step: u32)
    ensures { notes.new.items ≡ filter (is_until step) notes.old.items }
{
    notes.retain(|note| note.step <= step);
}

// Savepoints of later steps are dropped.
fn keep_savepoints(savepoints: &mut Vec<Savepoint>, step: u32)
    ensures { savepoints.new.items ≡ filter (λ s. nat_le s.step step) savepoints.old.items }
{
    savepoints.retain(|savepoint| savepoint.step <= step);
}

/// Whether one of these notes has a key of a table.
pub fn wrote(notes: &[Note], table: &Name, key: &Value) -> bool
    ensures { result ≡ list_any (λ n. list_any (is_key table.now key.now) n.keys) notes.now }
{
    notes
        .iter()
        .any(|note| has_key(note.keys.as_slice(), table, key))
}

fn has_key(keys: &[RowKey], table: &Name, key: &Value) -> bool
    ensures { result ≡ list_any (is_key table.now key.now) keys.now }
{
    keys.iter()
        .any(|row| row.table.is(table) && same_value(&row.key, key))
}
