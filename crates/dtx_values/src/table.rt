//! What a node has names for: tables with their columns, database links, and synonyms.
ghost use Rattle.std.specs.Prelude.{◌≡◌};

use crate::{Duplicate, Listing, Name};
use std::alloc::{AllocError, Global};

/// A column of a table.
pub struct Column {
    /// Its name.
    pub name: Name,
    /// The most bytes of a text, or nothing where the column is of numbers.
    pub text_max: Option<u16>,
    /// Whether it may not be NULL.
    pub not_null: bool,
    /// Whether this is the primary key.
    pub key: bool,
}

impl Drop for Column {
    fn drop(self) {
        let Column {
            name,
            text_max: _text_max,
            not_null: _not_null,
            key: _key,
        } = self;
        drop(name);
    }
}

/// The columns of a table, in order.
pub type Columns = Listing<Column>;

impl Duplicate for Column {
    fn copy(&self, alloc: Global) -> Result<Column, AllocError> {
        let name = self.name.copy(alloc)?;
        Ok(Column {
            name,
            text_max: self.text_max,
            not_null: self.not_null,
            key: self.key,
        })
    }
}

/// A table as it was created.
pub struct Table {
    /// Its name.
    pub name: Name,
    /// Its columns, in the order of the statement that created it.
    pub columns: Columns,
}

impl Drop for Table {
    fn drop(self) {
        let Table { name, columns } = self;
        drop(name);
        drop(columns);
    }
}

impl Duplicate for Table {
    fn copy(&self, alloc: Global) -> Result<Table, AllocError> {
        Ok(Table {
            name: self.name.copy(alloc)?,
            columns: self.columns.copy(alloc)?,
        })
    }
}

/// A database link, and the node that it leads to.
pub struct Link {
    /// Its own name.
    pub name: Name,
    /// The name of the node.
    pub target: Name,
}

impl Drop for Link {
    fn drop(self) {
        let Link { name, target } = self;
        drop(name);
        drop(target);
    }
}

impl Duplicate for Link {
    fn copy(&self, alloc: Global) -> Result<Link, AllocError> {
        Ok(Link {
            name: self.name.copy(alloc)?,
            target: self.target.copy(alloc)?,
        })
    }
}

/// A name for a table that is reached over a database link.
pub struct Synonym {
    /// Its own name.
    pub name: Name,
    /// The name of the table at the node of the link.
    pub table: Name,
    /// The name of the link.
    pub link: Name,
}

impl Drop for Synonym {
    fn drop(self) {
        let Synonym { name, table, link } = self;
        drop(name);
        drop(table);
        drop(link);
    }
}

impl Duplicate for Synonym {
    fn copy(&self, alloc: Global) -> Result<Synonym, AllocError> {
        Ok(Synonym {
            name: self.name.copy(alloc)?,
            table: self.table.copy(alloc)?,
            link: self.link.copy(alloc)?,
        })
    }
}
