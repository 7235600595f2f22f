//! What a statement's table name means at a node.
ghost use Rattle.std.specs.Prelude.{◌≡◌, [], false};
ghost use Rattle.std.specs.Option.{option_copied};
ghost use Rattle.catalog.specs.Catalog.{is_used};
ghost use Rattle.node_rules.specs.Names.{synonym_named as synonym_named_of, table_named as table_named_of, table_of, named_by as named_by_of, ref_of};
ghost use Rattle.node_ways.specs.Ways.{durable_with, named_as, has_table};

use catalog::Catalog;
use dtx_values::{Name, Synonym, Table};
use sql_statement::{Stmt, TableRef};

/// What a table's name means at a node.
#[derive(Drop)]
pub enum Named<'a> {
    /// A table of the node.
    Table(&'a Table),
    /// A table behind a database link.
    Behind {
        /// The link.
        link: &'a Name,
        /// The name of the table at the node of the link.
        table: &'a Name,
    },
    /// Neither a table nor a synonym.
    Unknown,
}

fn synonym_named<'a>(synonym: Option<&'a Synonym>) -> Named<'a>
    ensures { named_as result ≡ synonym_named_of (option_copied synonym.entry) }
{
    match synonym {
        None => Named::Unknown,
        Some(synonym) => Named::Behind {
            link: &synonym.link,
            table: &synonym.table,
        },
    }
}

// A table, or else a synonym.
fn table_named<'a>(catalog: &'a Catalog, name: &Name) -> Named<'a>
    ensures { named_as result ≡ table_named_of (durable_with catalog.now) name.now (table_of (durable_with catalog.now) name.now) }
{
    match catalog.table(name) {
        Some(table) => Named::Table(table),
        None => synonym_named(catalog.synonym(name)),
    }
}

fn named_by<'a>(catalog: &'a Catalog, table: &'a TableRef) -> Named<'a>
    ensures { named_as result ≡ named_by_of (durable_with catalog.now) table.now }
{
    match &table.link {
        Some(link) => Named::Behind {
            link,
            table: &table.name,
        },
        None => table_named(catalog, &table.name),
    }
}

/// What the name of a statement's table means at a node with this catalog.
#[tactic(auto, using(crate::proofs::CatalogLemmas::nameless_is_unknown))]
pub(crate) fn meaning<'a>(catalog: &'a Catalog, statement: &'a Stmt) -> Named<'a>
    requires { has_table statement.now ≡ false → is_used catalog.now [] ≡ false }
    ensures { named_as result ≡ named_by_of (durable_with catalog.now) (ref_of statement.now) }
{
    match statement {
        Stmt::Insert { table, .. } => named_by(catalog, table),
        Stmt::Update { table, .. } => named_by(catalog, table),
        Stmt::Delete { table, .. } => named_by(catalog, table),
        Stmt::Select { table, .. } => named_by(catalog, table),
        _ => Named::Unknown,
    }
}
