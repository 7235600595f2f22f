//! The catalog of a node.
ghost use Rattle.std.specs.Prelude.{◌≡◌, ◌↔◌, true, OnOk, OnErr, IsErrOf};
ghost use Rattle.std.specs.Option.{option_copied};
ghost use Rattle.catalog.specs.Catalog.{nothing_listed, with_table, with_link, with_synonym, with_recovery, table_of, link_of, synonym_of, is_used, is_link_used, HasOwnNames};
ghost use Rattle.catalog.specs.declared.cat_err.CatErr.TheVariants.{Used};

use crate::CatErr;
use crate::by_name::ByName;
use dtx_values::{Link, Name, Synonym, Table};
use std::alloc::Global;
use std::marker::Model;

/// Tables, links and synonyms by name, and whether recovery is enabled.
pub struct Catalog {
    recovery: bool,
    tables: ByName<Table>,
    links: ByName<Link>,
    synonyms: ByName<Synonym>,
}

impl Drop for Catalog {
    fn drop(self) {
        let Catalog {
            recovery: _recovery,
            tables,
            links,
            synonyms,
        } = self;
        drop(tables);
        drop(links);
        drop(synonyms);
    }
}

impl Model for Catalog {
    ghost use Rattle.catalog.specs.Catalog.{Listed, HasOwnNames};

    ghost Value = { Listed };

    ghost view = { λ c. record { recovery = c.recovery; tables = c.tables; links = c.links; synonyms = c.synonyms } };

    ghost invariant = { λ c. HasOwnNames (record { recovery = c.recovery; tables = c.tables; links = c.links; synonyms = c.synonyms }) };
}

impl Catalog {
    /// An empty catalog, with recovery enabled.
    pub fn new(alloc: Global) -> Catalog
        ensures { result ≡ nothing_listed }
    {
        Catalog {
            recovery: true,
            tables: ByName::new(alloc),
            links: ByName::new(alloc),
            synonyms: ByName::new(alloc),
        }
    }

    /// The table of this name, where there is one.
    pub fn table(&self, name: &Name) -> Option<&Table>
        ensures { option_copied result ≡ table_of self.now name.now }
    {
        self.tables.get(name)
    }

    /// The database link of this name, where there is one.
    pub fn link(&self, name: &Name) -> Option<&Link>
        ensures { option_copied result ≡ link_of self.now name.now }
    {
        self.links.get(name)
    }

    /// The synonym of this name, where there is one.
    pub fn synonym(&self, name: &Name) -> Option<&Synonym>
        ensures { option_copied result ≡ synonym_of self.now name.now }
    {
        self.synonyms.get(name)
    }

    /// Whether recovery is enabled (ALTER SYSTEM ENABLE or DISABLE DISTRIBUTED RECOVERY).
    pub fn recovery(&self) -> bool
        ensures { result ≡ self.now.recovery }
    {
        self.recovery
    }

    /// Whether a table or a synonym has this name.
    pub fn is_used(&self, name: &Name) -> bool
        ensures used { result ≡ is_used self.now name.now }
        ensures own_names { HasOwnNames self.now }
    {
        if self.tables.contains(name) {
            true
        } else {
            self.synonyms.contains(name)
        }
    }

    /// Whether a link has this name.
    pub fn is_link_used(&self, name: &Name) -> bool
        ensures used { result ≡ is_link_used self.now name.now }
        ensures own_names { HasOwnNames self.now }
    {
        self.links.contains(name)
    }

    /// Adds a table after the others. Fails with `Used` exactly where a table or a synonym has its name, and with
    /// `NoMemory` where memory runs out; it has changed nothing then.
    pub fn add_table(&mut self, alloc: Global, item: Table) -> Result<(), CatErr>
        ensures ok { OnOk result (self.new ≡ with_table self.old item) }
        ensures used { IsErrOf result Used ↔ (is_used self.old item.name ≡ true) }
        ensures err { OnErr result (self.new ≡ self.old) }
    {
        if self.is_used(&item.name) {
            return Err(CatErr::Used);
        }
        self.tables.push(alloc, item)?;
        Ok(())
    }

    /// Adds a database link after the others. Fails with `Used` exactly where a link has its name, and with
    /// `NoMemory` where memory runs out; it has changed nothing then.
    pub fn add_link(&mut self, alloc: Global, item: Link) -> Result<(), CatErr>
        ensures ok { OnOk result (self.new ≡ with_link self.old item) }
        ensures used { IsErrOf result Used ↔ (is_link_used self.old item.name ≡ true) }
        ensures err { OnErr result (self.new ≡ self.old) }
    {
        if self.is_link_used(&item.name) {
            return Err(CatErr::Used);
        }
        self.links.push(alloc, item)?;
        Ok(())
    }

    /// Adds a synonym after the others. Fails with `Used` exactly where a table or a synonym has its name, and with
    /// `NoMemory` where memory runs out; it has changed nothing then.
    pub fn add_synonym(&mut self, alloc: Global, item: Synonym) -> Result<(), CatErr>
        ensures ok { OnOk result (self.new ≡ with_synonym self.old item) }
        ensures used { IsErrOf result Used ↔ (is_used self.old item.name ≡ true) }
        ensures err { OnErr result (self.new ≡ self.old) }
    {
        if self.is_used(&item.name) {
            return Err(CatErr::Used);
        }
        self.synonyms.push(alloc, item)?;
        Ok(())
    }

    /// Enables or disables recovery.
    pub fn set_recovery(&mut self, on: bool)
        ensures { self.new ≡ with_recovery self.old on }
    {
        self.recovery = on;
    }
}
