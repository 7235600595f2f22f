//! What a branch has changed, statement by statement.
ghost use Rattle.std.specs.Prelude.{◌≡◌, ◌-◌, ◌≤◌, [], ◌∷◌, ◌++◌, length, nat_lt, take, None, IfOk, OnOk, OnErr, MatchOption};
ghost use Rattle.std.specs.Option.{option_copied};
ghost use Rattle.row_store.specs.Own.{changes_length, last_at as last_at_of};
ghost use Rattle.row_store.specs.ByBranch.{changes_kept};

use crate::made::MadeChanges;
use crate::placing::copies;
use dtx_values::{Change, Changes, Listing, Name, Row, Value};
use std::alloc::{AllocError, Global};
use std::marker::Model;

/// How many changes a set has, and how many bytes their undo takes.
#[derive(Clone, Copy, Drop)]
pub(crate) struct SetSize {
    pub(crate) changes: usize,
    pub(crate) undo: usize,
}

/// The changes of a branch, a set for each statement. The last set can be taken back.
pub(crate) struct OwnSets {
    made: MadeChanges,
    sizes: Vec<SetSize>,
    // The owner of their undo.
    owner: u32,
}

impl Drop for OwnSets {
    fn drop(self) {
        let OwnSets {
            made,
            sizes,
            owner: _owner,
        } = self;
        drop(made);
        drop(sizes);
    }
}

impl Model for OwnSets {
    ghost use Rattle.row_store.specs.ByBranch.{KeptSets};

    ghost Value = { KeptSets };

    ghost view = { λ s. record { changes = s.made; sizes = s.sizes.items; owner = s.owner } };
}

impl OwnSets {
    /// No set, and this owner of the undo to come.
    pub(crate) fn new(alloc: Global, owner: u32) -> OwnSets
        ensures { result ≡ record { changes = []; sizes = []; owner = owner } }
    {
        OwnSets {
            made: MadeChanges::new(alloc),
            sizes: Vec::new(alloc),
            owner,
        }
    }

    /// The owner of their undo.
    pub(crate) fn owner(&self) -> u32
        ensures { result ≡ self.now.owner }
    {
        self.owner
    }

    /// The bytes of all changes.
    pub(crate) fn bytes(&self) -> u64
        ensures { result ≡ changes_length self.now.changes }
    {
        self.made.bytes()
    }

    /// Whether there is any change.
    pub(crate) fn has_changes(&self) -> bool
        ensures { result ≡ nat_lt 0 (length self.now.changes) }
    {
        self.made.len() > 0
    }

    /// What the last change at a key leaves there, where there is one.
    pub(crate) fn last_at(&self, table: &Name, key: &Value) -> Option<&Option<Row>>
        ensures { option_copied result ≡ last_at_of self.now.changes table.now key.now None }
    {
        self.made.last_at(table, key)
    }

    /// All changes, where they stand.
    pub(crate) fn as_slice(&self) -> &[Change]
        ensures { result.now ≡ self.now.changes }
    {
        self.made.as_slice()
    }

    /// A copy of all changes.
    pub(crate) fn changes(&self, alloc: Global) -> Result<Changes, AllocError>
        ensures { IfOk result (λ changes. changes ≡ self.now.changes) }
    {
        Ok(Listing::of(copies(alloc, self.made.as_slice())?))
    }

    /// All changes.
    pub(crate) fn into_changes(self) -> Vec<Change>
        ensures { result.items ≡ self.changes }
    {
        let OwnSets {
            made,
            sizes,
            owner: _owner,
        } = self;
        drop(sizes);
        made.into_vec()
    }

    /// Adds the set of one more statement, whose undo takes so many bytes.
    pub(crate) fn push(
        &mut self,
        alloc: Global,
        set: Changes,
        undo: usize,
    ) -> Result<(), AllocError>
        ensures ok { OnOk result (self.new ≡ record self.old { changes = self.old.changes ++ set; sizes = self.old.sizes ++ (record { changes = length set; undo = undo }) ∷ [] }) }
        ensures err { OnErr result (self.new ≡ self.old) }
    {
        self.sizes.try_reserve(1)?;
        let size = SetSize {
            changes: set.as_slice().len(),
            undo,
        };
        add(alloc, &mut self.made, set)?;
        self.sizes.push(size).unwrap();
        Ok(())
    }

    /// Takes back the last set, where there is one, and gives its size.
    pub(crate) fn pop(&mut self) -> Option<SetSize>
        ensures sizes { MatchOption result (self.old.sizes ≡ []) (λ size. self.old.sizes ≡ self.new.sizes ++ size ∷ []) }
        ensures sets { MatchOption result (self.new ≡ self.old) (λ size. self.new ≡ record self.old { changes = take (length self.old.changes - size.changes) self.old.changes; sizes = self.new.sizes }) }
    {
        let size = self.sizes.pop()?;
        let len = self.made.len().saturating_sub(size.changes);
        self.made.truncate(len);
        Some(size)
    }
}

// Adds these changes, or none where memory runs out.
fn add(alloc: Global, made: &mut MadeChanges, set: Changes) -> Result<(), AllocError>
    ensures ok { OnOk result (made.new ≡ made.old ++ set) }
    ensures err { OnErr result (made.new ≡ made.old) }
{
    let len = made.len();
    let added = add_some(alloc, made, set);
    if added.is_err() {
        made.truncate(len);
    }
    added
}

// Adds these changes one by one, as far as memory goes.
fn add_some(alloc: Global, made: &mut MadeChanges, set: Changes) -> Result<(), AllocError>
    ensures ok { OnOk result (made.new ≡ made.old ++ set) }
    ensures front { take (length made.old) made.new ≡ made.old }
    ensures long { length made.old ≤ length made.new }
{
    for change in set.into_vec() {
        made.push(alloc, change)?;
    }
    Ok(())
}

/// What the last of these changes at a key leaves there, where there is one.
pub(crate) fn last_of<'a>(
    sets: Option<&'a OwnSets>,
    table: &Name,
    key: &Value,
) -> Option<&'a Option<Row>>
    ensures { option_copied result ≡ last_at_of (changes_kept (option_copied sets.entry)) table.now key.now None }
{
    sets?.last_at(table, key)
}

/// The bytes of these changes, where there are any.
pub(crate) fn bytes_of(sets: Option<&OwnSets>) -> u64
    ensures { result ≡ changes_length (changes_kept (option_copied sets.entry)) }
{
    match sets {
        Some(sets) => sets.bytes(),
        None => 0,
    }
}
