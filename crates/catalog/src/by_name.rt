//! Items in the order in which they were added, found by their names.
ghost use Rattle.std.specs.Prelude.{◌≡◌, ℕ, List, [], ◌∷◌, ◌++◌, false, find, OnOk, OnErr};
ghost use Rattle.std.specs.List.{list_any};
ghost use Rattle.std.specs.Option.{option_copied};
ghost use Rattle.std.specs.Str.{bytes_eq};

use dtx_values::{Duplicate, Link, Name, Synonym, Table};
use indexmap::IndexMap;
use std::alloc::{AllocError, Global};
use std::marker::Model;

/// An item with a name.
pub(crate) trait Named {
    // The bytes of the name.
    ghost title: { Self → List ℕ };

    /// The name.
    fn name(&self) -> &Name
        ensures { result.now ≡ title self.now };
}

impl Named for Table {
    ghost title = { λ t. t.name };

    fn name(&self) -> &Name {
        &self.name
    }
}

impl Named for Link {
    ghost title = { λ l. l.name };

    fn name(&self) -> &Name {
        &self.name
    }
}

impl Named for Synonym {
    ghost title = { λ y. y.name };

    fn name(&self) -> &Name {
        &self.name
    }
}

/// Items by their names. Contracts see it as the list of the items.
#[derive(Drop)]
pub(crate) struct ByName<T: Named> {
    items: IndexMap<Name, T>,
}

impl<T: Named> Model for ByName<T> {
    ghost use Rattle.std.specs.Prelude.{◌≡◌, List, map};
    ghost use Rattle.indexmap.specs.IndexMap.{keys, values};

    ghost Value = { List T };

    ghost view = { λ a. values a.items };

    ghost invariant = { λ a. keys a.items ≡ map T.title (values a.items) };
}

impl<T: Named + Drop> ByName<T> {
    /// No item.
    pub(crate) fn new(alloc: Global) -> ByName<T>
        ensures { result ≡ [] }
    {
        ByName {
            items: IndexMap::new(alloc),
        }
    }

    /// The first item of this name.
    pub(crate) fn get(&self, name: &Name) -> Option<&T>
        ensures { option_copied result ≡ find (λ x. bytes_eq (T.title x) name.now) self.now }
    {
        self.items.get(name)
    }

    /// Whether an item has this name.
    pub(crate) fn contains(&self, name: &Name) -> bool
        ensures { result ≡ list_any (λ x. bytes_eq (T.title x) name.now) self.now }
    {
        self.items.contains_key(name)
    }

    /// Adds an item of a new name after the others. Fails where memory runs out, and has changed nothing then.
    pub(crate) fn push(&mut self, alloc: Global, item: T) -> Result<(), AllocError>
        requires new { list_any (λ x. bytes_eq (T.title x) (T.title item)) self.old ≡ false }
        ensures ok { OnOk result (self.new ≡ self.old ++ item ∷ []) }
        ensures err { OnErr result (self.new ≡ self.old) }
    {
        let name = item.name().copy(alloc)?;
        self.items.insert(name, item)?;
        Ok(())
    }
}
