//! Where a statement goes from a live branch.
ghost use Rattle.std.specs.Prelude.{◌≡◌, ◌≤◌, [], false, length};
ghost use Rattle.dtx_values.specs.Limits.{link_limit, node_limit};
ghost use Rattle.catalog.specs.Catalog.{is_used};
ghost use Rattle.session_tree.specs.Live.{edge_by_link as edge_by_link_of};
ghost use Rattle.sql_check.specs.Refusals.{dtx};
ghost use Rattle.node_rules.specs.Data.{Durable};
ghost use Rattle.node_rules.specs.Names.{way_new as way_new_of, way_edge as way_edge_of, way_target as way_target_of, way_named as way_named_of, way_of as way_of_statement, target_of as target_of_link, is_write as is_write_of};
ghost use Rattle.node_ways.specs.Ways.{durable_with, listed_of, named_as, way_as, has_table};

use crate::named::meaning;
use crate::target::{edge_by_link, target_of};
use crate::{Named, Way};
use catalog::Catalog;
use dtx_values::{DEPTH_LIMIT, Listing, Name, Refusal};
use node_drafts::{NO_NODE, NO_TABLE, TOO_MANY_LINKS, TREE_FULL, is_read_only};
use redo_record::Place;
use session_tree::{Live, room};
use sql_check::plain;
use sql_statement::Stmt;
use std::alloc::Global;

// DTX-02: the session tree is too deep or too wide.
fn tree_is_full(alloc: Global) -> Refusal
    ensures { result ≡ dtx 2 [] }
{
    Refusal {
        code: TREE_FULL,
        args: Listing::new(alloc),
    }
}

// A link without a child.
fn way_new<'a>(
    alloc: Global,
    place: &Place,
    live: &Live,
    given: u16,
    node: u8,
    link: &'a Name,
    table: &'a Name,
) -> Way<'a>
    requires { length live.now.edges ≤ link_limit }
    ensures { way_as result ≡ way_new_of place.now live.now given node link.now table.now }
{
    if DEPTH_LIMIT <= live.depth || room(live, given) == 0 {
        Way::NowhereTo(tree_is_full(alloc))
    } else if place.links as usize <= live.edges.as_slice().len() {
        Way::NowhereTo(plain(alloc, TOO_MANY_LINKS))
    } else {
        Way::Through { node, link, table }
    }
}

// The child of the link, or a new one.
fn way_edge<'a>(
    alloc: Global,
    place: &Place,
    live: &Live,
    given: u16,
    node: u8,
    link: &'a Name,
    table: &'a Name,
) -> Way<'a>
    requires { length live.now.edges ≤ link_limit }
    ensures { way_as result ≡ way_edge_of place.now live.now given node link.now table.now (edge_by_link_of live.now link.now) }
{
    match edge_by_link(live, link) {
        Some(edge) => Way::Over { edge, table },
        None => way_new(alloc, place, live, given, node, link, table),
    }
}

// A table behind a link.
fn way_behind<'a>(
    alloc: Global,
    place: &Place,
    catalog: &Catalog,
    live: &Live,
    given: u16,
    link: &'a Name,
    table: &'a Name,
) -> Way<'a>
    requires nodes { length place.now.names ≤ node_limit }
    requires edges { length live.now.edges ≤ link_limit }
    ensures { way_as result ≡ way_target_of place.now live.now given link.now table.now (target_of_link place.now (durable_with catalog.now) link.now) }
{
    match target_of(place, catalog, link) {
        None => Way::NowhereTo(plain(alloc, NO_NODE)),
        Some(node) => way_edge(alloc, place, live, given, node, link, table),
    }
}

fn way_named<'a>(
    alloc: Global,
    place: &Place,
    catalog: &Catalog,
    live: &Live,
    given: u16,
    named: Named<'a>,
) -> Way<'a>
    requires nodes { length place.now.names ≤ node_limit }
    requires edges { length live.now.edges ≤ link_limit }
    ensures { way_as result ≡ way_named_of place.now (durable_with catalog.now) live.now given (named_as named.entry) }
{
    match named {
        Named::Unknown => Way::NowhereTo(plain(alloc, NO_TABLE)),
        Named::Table(table) => Way::RunsHere(table),
        Named::Behind { link, table } => {
            way_behind(alloc, place, catalog, live, given, link, table)
        }
    }
}

/// Whether a statement with a table writes rows or locks them.
pub fn is_write(statement: &Stmt) -> bool
    ensures { result ≡ is_write_of statement.now }
{
    match statement {
        Stmt::Select { for_update, .. } => *for_update,
        _ => true,
    }
}

// By the meaning of its name, unless a READ ONLY branch would write.
#[tactic(auto, unfolding(node_rules::specs::Names::way_of))]
fn way_in<'a>(
    alloc: Global,
    place: &Place,
    catalog: &'a Catalog,
    live: &Live,
    given: u16,
    statement: &'a Stmt,
) -> Way<'a>
    requires nodes { length place.now.names ≤ node_limit }
    requires edges { length live.now.edges ≤ link_limit }
    requires names { has_table statement.now ≡ false → is_used catalog.now [] ≡ false }
    ensures { way_as result ≡ way_of_statement place.now (durable_with catalog.now) live.now given statement.now }
{
    if live.read_at.is_some() && is_write(statement) {
        Way::NowhereTo(is_read_only(alloc))
    } else {
        way_named(
            alloc,
            place,
            catalog,
            live,
            given,
            meaning(catalog, statement),
        )
    }
}

/// Where a statement goes from a live branch of a node with this catalog, with the room that its Exec carried: it runs here,
/// goes to the child of its link, opens the link, or is refused. A READ ONLY branch would write: DTX-21. The name is unknown:
/// ORA-00942. The link leads to no node: ORA-02019. A link without a child: DTX-02 where the session tree is too deep or too
/// wide, then ORA-02020 where the branch has as many links as it may have. No memory is taken.
pub fn way_of<'a>(
    alloc: Global,
    place: &Place,
    catalog: &'a Catalog,
    live: &Live,
    given: u16,
    statement: &'a Stmt,
) -> Way<'a>
    requires nodes { length place.now.names ≤ node_limit }
    requires edges { length live.now.edges ≤ link_limit }

    // A statement of a form without a table names the empty name, which nothing has.
    requires names { has_table statement.now ≡ false → is_used catalog.now [] ≡ false }

    // Whatever else the records leave of a node with this catalog.
    ensures { (d : Durable) → listed_of d ≡ catalog.now → way_as result ≡ way_of_statement place.now d live.now given statement.now }
{
    way_in(alloc, place, catalog, live, given, statement)
}
