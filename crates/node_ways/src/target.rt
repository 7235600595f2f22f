//! Where a link leads: the node of its target, and the child that was opened over it.
ghost use Rattle.std.specs.Prelude.{◌≡◌, ◌+◌, ◌≤◌, length, position, option_map};
ghost use Rattle.std.specs.Option.{option_copied};
ghost use Rattle.dtx_values.specs.Limits.{link_limit, node_limit};
ghost use Rattle.session_tree.specs.Live.{edge_by_link as edge_by_link_of};
ghost use Rattle.sql_check.specs.Words.{same_text};
ghost use Rattle.node_rules.specs.Names.{node_named as node_named_of, target_of as target_of_link};
ghost use Rattle.node_ways.specs.Ways.{durable_with};

use catalog::Catalog;
use dtx_values::{Link, Name};
use redo_record::Place;
use session_tree::{Edge, Live};

fn place_of(names: &[Name], target: &Name) -> Option<usize>
    ensures { result ≡ position (same_text target.now) names.now }
{
    names.iter().position(|name| target.is(name))
}

fn node_named(names: &[Name], link: Option<&Link>) -> Option<u8>
    requires { length names.now ≤ node_limit }
    ensures { result ≡ node_named_of names.now (option_copied link.entry) }
{
    let place = place_of(names, &link?.target)?;
    Some(place as u8 + 1)
}

/// The number of the node that a link of the catalog leads to, where it leads to one.
pub(crate) fn target_of(place: &Place, catalog: &Catalog, link: &Name) -> Option<u8>
    requires { length place.now.names ≤ node_limit }
    ensures { result ≡ target_of_link place.now (durable_with catalog.now) link.now }
{
    node_named(place.names.as_slice(), catalog.link(link))
}

fn edge_of(edges: &[Edge], link: &Name) -> Option<usize>
    ensures { result ≡ position (λ e. same_text e.link link.now) edges.now }
{
    edges.iter().position(|edge| edge.link.is(link))
}

/// The number of the child that a link leads to, where the branch has used it before.
pub(crate) fn edge_by_link(live: &Live, link: &Name) -> Option<u8>
    requires { length live.now.edges ≤ link_limit }
    ensures { result ≡ edge_by_link_of live.now link.now }
{
    let place = edge_of(live.edges.as_slice(), link)?;
    Some(place as u8 + 1)
}
