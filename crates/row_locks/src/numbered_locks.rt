//! The locks of a node in the order in which they were taken.
ghost use Rattle.std.specs.Prelude.{◌≡◌, ℕ, ◌-◌, if◌then◌else◌, ◌&&◌, List, [], ◌∷◌, ◌++◌, map, filter, find, length, is_some, false, None, IfOk, OnErr};
ghost use Rattle.std.specs.List.{list_any, slice_get};
ghost use Rattle.std.specs.Map.{lookup};
ghost use Rattle.std.specs.Option.{option_map};
ghost use Rattle.std.specs.Str.{bytes_eq};
ghost use Rattle.dtx_values.specs.declared.value.Value.{Value as AnyValue};
ghost use Rattle.row_locks.specs.Back.{kept_if};
ghost use Rattle.row_locks.specs.Locks.{is_lock_on};
ghost use Rattle.row_locks.specs.Numbered.{lock_of, is_on, is_number, number_at, holder_in, holder_on, is_live_one, is_read_one, without_numbers, without_read_numbers, written, doubtful, changed_at, AreApart};

use crate::held_key::{HeldKey, Holder};
use crate::kept_key::write_if;
use crate::lock_key::{LockKey, owned_key};
use dtx_values::{Change, Duplicate, Listing, Name, Value};
use indexmap::IndexMap;
use savepoints::Note;
use std::alloc::{AllocError, Global};
use std::borrow::Cow;
use std::collections::BTreeMap;
use std::marker::Model;

/// The locks of a node, each with a number of its own. A lock that is taken later has a greater number.
pub(crate) struct NumberedLocks {
    locks: BTreeMap<u64, HeldKey>,
    // The number of the lock on each key.
    numbers: IndexMap<LockKey<'static>, u64>,
    // The number of the next lock.
    next: u64,
    // How many locks are in doubt.
    doubts: usize,
}

impl Drop for NumberedLocks {
    fn drop(self) {
        let NumberedLocks {
            locks,
            numbers,
            next: _next,
            doubts: _doubts,
        } = self;
        drop(locks);
        drop(numbers);
    }
}

impl Model for NumberedLocks {
    ghost use Rattle.std.specs.Prelude.{List};
    ghost use Rattle.row_locks.specs.Numbered.{Numbered, AreNumbered};

    ghost Value = { List Numbered };

    ghost view = { λ l. l.locks.entries };

    ghost invariant = { λ l. AreNumbered l.locks.entries l.numbers.entries l.next l.doubts };
}

impl NumberedLocks {
    /// No lock.
    pub(crate) fn new(alloc: Global) -> NumberedLocks
        ensures { result ≡ [] }
    {
        NumberedLocks {
            locks: BTreeMap::new(alloc),
            numbers: IndexMap::new(alloc),
            next: 0,
            doubts: 0,
        }
    }

    /// Who holds a key.
    pub(crate) fn holder(&self, table: &Name, key: &Value) -> Option<Holder>
        ensures holder { result ≡ holder_on self.now table.now key.now }
        ensures apart { AreApart self.now }
    {
        let asked = LockKey {
            table: Cow::Borrowed(table),
            key: Cow::Borrowed(key),
        };
        let number = *self.numbers.get(&asked)?;
        let lock = self.locks.get(&number)?;
        Some(Holder {
            number,
            branch: lock.branch,
            in_doubt: lock.in_doubt,
        })
    }

    /// How many locks there are.
    pub(crate) fn len(&self) -> usize
        ensures { result ≡ length self.now }
    {
        self.locks.len()
    }

    /// Who holds the key of the last lock, where there is one.
    pub(crate) fn last(&self) -> Option<Holder>
        ensures holder { result ≡ option_map holder_in (slice_get self.now (length self.now - 1)) }
        ensures apart { AreApart self.now }
    {
        let (number, lock) = self.locks.last_key_value()?;
        Some(Holder {
            number: *number,
            branch: lock.branch,
            in_doubt: lock.in_doubt,
        })
    }

    /// Whether there is a lock with a number.
    pub(crate) fn has(&self, number: u64) -> bool
        ensures { result ≡ is_some (lookup (is_number number) self.now) }
    {
        self.locks.contains_key(&number)
    }

    /// Every key of a table that is held.
    pub(crate) fn keys(&self, alloc: Global, table: &Name) -> Result<Listing<Value>, AllocError>
        ensures { IfOk result (λ keys. keys ≡ map (λ e. e.1.key) (filter (λ e. bytes_eq e.1.table table.now) self.now)) }
    {
        let mut keys = Vec::new(alloc);
        for (_, lock) in &self.locks {
            if lock.table.is(table) {
                keys.push(lock.key.copy(alloc)?)?;
            }
        }
        Ok(Listing::of(keys))
    }

    /// Whether a lock on a key of a table is in doubt.
    pub(crate) fn has_doubt(&self, table: &Name) -> bool
        ensures { result ≡ list_any (λ e. e.1.in_doubt && bytes_eq e.1.table table.now) self.now }
    {
        self.doubts > 0 && self.is_doubted(table)
    }

    /// Adds a lock on a key that is free, and gives its number.
    pub(crate) fn push(&mut self, alloc: Global, lock: HeldKey) -> Result<u64, AllocError>
        requires free { find (is_on lock.table lock.key) self.old ≡ None }
        requires live { lock.in_doubt ≡ false }
        ensures ok { IfOk result (λ number. self.new ≡ self.old ++ (number, lock) ∷ []) }
        ensures apart { AreApart self.new }
        ensures err { OnErr result (self.new ≡ self.old) }
    {
        let number = self.next;
        let next = number.checked_add(1).ok_or(AllocError)?;
        let key = owned_key(alloc, &lock)?;
        self.numbers.reserve(1)?;
        drop(self.locks.insert(number, lock)?);
        self.numbers.insert(key, number).unwrap();
        self.next = next;
        Ok(number)
    }

    /// Drops the lock with a number, where there is one.
    pub(crate) fn remove(&mut self, number: u64)
        ensures { self.new ≡ without_numbers (number ∷ []) self.old }
    {
        if let Some(lock) = self.locks.remove(&number) {
            forget(&mut self.numbers, &lock);
            if lock.in_doubt {
                self.doubts -= 1;
            }
        }
    }

    /// Drops the lock with a number, where its key is only read.
    pub(crate) fn remove_read(&mut self, number: u64)
        ensures { self.new ≡ without_read_numbers (number ∷ []) self.old }
    {
        if self.is_read(number) {
            self.remove(number);
        }
    }

    /// The key of the lock with a number is written from now on.
    pub(crate) fn mark_written(&mut self, number: u64)
        ensures { self.new ≡ changed_at written (number ∷ []) self.old }
    {
        write(&mut self.locks, number);
    }

    /// The key of the lock with a number counts as written where one of these notes has it, or one of these changes is at it.
    pub(crate) fn write_if_kept(&mut self, number: u64, notes: &[Note], changes: &[Change])
        ensures { self.new ≡ changed_at (kept_if notes.now changes.now) (number ∷ []) self.old }
    {
        write_kept(&mut self.locks, number, notes, changes);
    }

    /// The lock with a number is in doubt from now on.
    pub(crate) fn mark_in_doubt(&mut self, number: u64)
        ensures { self.new ≡ changed_at doubtful (number ∷ []) self.old }
    {
        if self.is_live(number) {
            let some_are_live = self.doubts < self.locks.len();
            prove!(some_are_live);
            self.doubts += 1;
            doubt(&mut self.locks, number);
        }
    }

    // Whether a lock on a key of a table is in doubt, by a look at each.
    fn is_doubted(&self, table: &Name) -> bool
        ensures { result ≡ list_any (λ e. e.1.in_doubt && bytes_eq e.1.table table.now) self.now }
    {
        for (_, lock) in &self.locks {
            if lock.in_doubt && lock.table.is(table) {
                return true;
            }
        }
        false
    }

    // Whether the lock with a number is not in doubt.
    fn is_live(&self, number: u64) -> bool
        ensures live { result ≡ is_live_one (lookup (is_number number) self.now) }
        ensures apart { AreApart self.now }
    {
        match self.locks.get(&number) {
            Some(lock) => !lock.in_doubt,
            None => false,
        }
    }

    // Whether the key of the lock with a number is only read.
    fn is_read(&self, number: u64) -> bool
        ensures read { result ≡ is_read_one (lookup (is_number number) self.now) }
        ensures apart { AreApart self.now }
    {
        match self.locks.get(&number) {
            Some(lock) => !lock.writes,
            None => false,
        }
    }
}

// No number is kept any more for the key of a lock.
fn forget(numbers: &mut IndexMap<LockKey<'static>, u64>, lock: &HeldKey)
    ensures { (table : List ℕ) (key : AnyValue) → number_at numbers.new.entries table key
        ≡ (if is_lock_on table key (lock_of lock.now) then None else number_at numbers.old.entries table key) }
{
    let asked = LockKey {
        table: Cow::Borrowed(&lock.table),
        key: Cow::Borrowed(&lock.key),
    };
    if let Some(place) = numbers.get_index_of(&asked) {
        drop(numbers.swap_remove_index(place));
    }
}

// The key of a lock is written from now on.
fn write(locks: &mut BTreeMap<u64, HeldKey>, number: u64)
    ensures { locks.new.entries ≡ changed_at written (number ∷ []) locks.old.entries }
{
    if let Some(lock) = locks.get_mut(&number) {
        lock.writes = true;
    }
}

// The key of a lock counts as written where it stays.
fn write_kept(locks: &mut BTreeMap<u64, HeldKey>, number: u64, notes: &[Note], changes: &[Change])
    ensures { locks.new.entries ≡ changed_at (kept_if notes.now changes.now) (number ∷ []) locks.old.entries }
{
    if let Some(lock) = locks.get_mut(&number) {
        write_if(lock, notes, changes);
    }
}

// A lock is in doubt from now on.
fn doubt(locks: &mut BTreeMap<u64, HeldKey>, number: u64)
    ensures { locks.new.entries ≡ changed_at doubtful (number ∷ []) locks.old.entries }
{
    if let Some(lock) = locks.get_mut(&number) {
        lock.in_doubt = true;
    }
}
