//! Changes that a branch made, which can be taken back.
ghost use Rattle.std.specs.Prelude.{◌≡◌, ℕ, ◌+◌, ◌-◌, ◌≤◌, if◌then◌else◌, List, [], ◌∷◌, ◌++◌, length, take, None, is_some, true, IfOk, OnOk, OnErr};
ghost use Rattle.std.specs.Cow.{cow_value};
ghost use Rattle.std.specs.Option.{option_copied};
ghost use Rattle.dtx_values.specs.declared.value.Value.{Value as AnyValue};
ghost use Rattle.sql_eval.specs.Rows.{change_length};
ghost use Rattle.row_store.specs.Own.{changes_length, is_change_of, last_at as last_at_of};
ghost use Rattle.row_store.specs.Kept.{place_at, last_place, after_at as after_at_of};

use crate::changed_key::{ChangedKey, owned_key};
use crate::lengths::{change_len, sum};
use dtx_values::{Change, Name, Row, Value};
use indexmap::IndexMap;
use std::alloc::{AllocError, Global};
use std::borrow::Cow;
use std::marker::Model;

// What is kept beside a change: its key, the place of the change before it at that key, and the bytes of all with it.
#[derive(Drop)]
struct Next {
    key: ChangedKey<'static>,
    earlier: Option<usize>,
    bytes: u64,
}

/// Changes in order. The last one at a key is found by a hash table of the keys.
pub(crate) struct MadeChanges {
    made: Vec<Change>,
    // For each change, the place of the last one before it at its key.
    earlier: Vec<Option<usize>>,
    // The place of the last change at each key.
    places: IndexMap<ChangedKey<'static>, usize>,
    bytes: u64,
}

impl Drop for MadeChanges {
    fn drop(self) {
        let MadeChanges {
            made,
            earlier,
            places,
            bytes: _bytes,
        } = self;
        drop(made);
        drop(earlier);
        drop(places);
    }
}

impl Model for MadeChanges {
    ghost use Rattle.std.specs.Prelude.{List};
    ghost use Rattle.dtx_values.specs.declared.row.Change.{Change};
    ghost use Rattle.row_store.specs.Kept.{AreIndexed};

    ghost Value = { List Change };

    ghost view = { λ m. m.made.items };

    ghost invariant = { λ m. AreIndexed m.places.entries m.earlier.items m.made.items m.bytes };
}

impl MadeChanges {
    /// No change.
    pub(crate) fn new(alloc: Global) -> MadeChanges
        ensures { result ≡ [] }
    {
        MadeChanges {
            made: Vec::new(alloc),
            earlier: Vec::new(alloc),
            places: IndexMap::new(alloc),
            bytes: 0,
        }
    }

    /// How many there are.
    pub(crate) fn len(&self) -> usize
        ensures { result ≡ length self.now }
    {
        self.made.len()
    }

    /// The changes in order.
    pub(crate) fn as_slice(&self) -> &[Change]
        ensures { result.now ≡ self.now }
    {
        self.made.as_slice()
    }

    /// The changes alone.
    pub(crate) fn into_vec(self) -> Vec<Change>
        ensures { result.items ≡ self }
    {
        let MadeChanges {
            made,
            earlier,
            places,
            bytes: _bytes,
        } = self;
        drop(earlier);
        drop(places);
        made
    }

    /// The bytes of the changes.
    pub(crate) fn bytes(&self) -> u64
        ensures { result ≡ changes_length self.now }
    {
        self.bytes
    }

    /// What the last change at a key leaves there, where there is one.
    pub(crate) fn last_at(&self, table: &Name, key: &Value) -> Option<&Option<Row>>
        ensures { option_copied result ≡ last_at_of self.now table.now key.now None }
    {
        after_at(self.made.as_slice(), self.place(table, key))
    }

    /// Adds a change behind the others.
    pub(crate) fn push(&mut self, alloc: Global, change: Change) -> Result<(), AllocError>
        ensures ok { OnOk result (self.new ≡ self.old ++ change ∷ []) }
        ensures err { OnErr result (self.new ≡ self.old) }
    {
        self.made.try_reserve(1)?;
        self.earlier.try_reserve(1)?;
        let next = self.next(alloc, &change)?;
        self.places.insert(next.key, self.made.len())?;
        self.made.push(change).unwrap();
        self.earlier.push(next.earlier).unwrap();
        self.bytes = next.bytes;
        Ok(())
    }

    /// Takes back all changes behind the first so many.
    pub(crate) fn truncate(&mut self, len: usize)
        requires { len ≤ length self.old }
        ensures { self.new ≡ take len self.old }
    {
        while len < self.made.len() {
            self.pop();
        }
    }

    /// Takes back the last change, where there is one.
    pub(crate) fn pop(&mut self)
        ensures { self.new ≡ take (length self.old - 1) self.old }
    {
        if let Some(change) = self.made.pop() {
            self.bytes = less(self.bytes, &change);
            let earlier = self.earlier.pop().unwrap();
            set_place(&mut self.places, &change, earlier);
        }
    }

    // What is kept beside a change behind the others.
    fn next(&self, alloc: Global, change: &Change) -> Result<Next, AllocError>
        ensures table { IfOk result (λ next. cow_value next.key.table ≡ change.now.table) }
        ensures key { IfOk result (λ next. cow_value next.key.key ≡ change.now.key) }
        ensures earlier { IfOk result (λ next. next.earlier ≡ last_place 0 self.now change.now.table change.now.key None) }
        ensures bytes { IfOk result (λ next. next.bytes ≡ changes_length self.now + change_length change.now) }
    {
        let bytes = sum(self.bytes, change_len(change)?)?;
        Ok(Next {
            key: owned_key(alloc, change)?,
            earlier: self.place(&change.table, &change.key),
            bytes,
        })
    }

    // The place of the last change at a key.
    fn place(&self, table: &Name, key: &Value) -> Option<usize>
        ensures { result ≡ last_place 0 self.now table.now key.now None }
    {
        let asked = ChangedKey {
            table: Cow::Borrowed(table),
            key: Cow::Borrowed(key),
        };
        self.places.get(&asked).copied()
    }
}

// What the change at a place leaves.
fn after_at(made: &[Change], place: Option<usize>) -> Option<&Option<Row>>
    ensures { option_copied result ≡ after_at_of made.now place }
{
    let made = made.get(place?)?;
    Some(&made.after)
}

// Bytes without those of a change.
fn less(bytes: u64, change: &Change) -> u64
    requires { change_length change.now ≤ bytes }
    ensures { result + change_length change.now ≡ bytes }
{
    match change_len(change) {
        Ok(len) => bytes - len,
        Err(_) => 0,
    }
}

// Puts the place of the last change at a key, or takes the key out where there is none.
fn set_place(
    places: &mut IndexMap<ChangedKey<'static>, usize>,
    change: &Change,
    place: Option<usize>,
)
    requires { is_some (place_at places.old.entries change.now.table change.now.key) ≡ true }
    ensures { (table : List ℕ) (key : AnyValue) → place_at places.new.entries table key
        ≡ (if is_change_of table key change.now then place else place_at places.old.entries table key) }
{
    let asked = ChangedKey {
        table: Cow::Borrowed(&change.table),
        key: Cow::Borrowed(&change.key),
    };
    let Some(last) = places.get_index_of(&asked) else {
        return;
    };
    match place {
        None => drop(places.swap_remove_index(last)),
        Some(place) => places[last] = place,
    }
}
