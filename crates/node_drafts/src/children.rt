//! The children of a branch, by their numbers.
ghost use Rattle.std.specs.Prelude.{◌≡◌};
ghost use Rattle.std.specs.Option.{option_copied};
ghost use Rattle.session_tree.specs.Live.{edge_at as edge_at_of, peer_of as peer_of_number};
ghost use Rattle.node_rules.specs.Client.{link_at as link_at_of};

use session_tree::{Edge, Live};
use tran_ids::BranchId;

/// The edge to the child of a number, from 1, where there is one.
pub fn edge_at(live: &Live, number: u8) -> Option<&Edge>
    ensures { option_copied result ≡ edge_at_of live.now number }
{
    let place = usize::from(number).checked_sub(1)?;
    live.edges.as_slice().get(place)
}

/// The child of a number, from 1, where there is one.
pub fn peer_of(live: &Live, number: u8) -> Option<BranchId>
    ensures { result ≡ peer_of_number live.now number }
{
    let edge = edge_at(live, number)?;
    Some(edge.peer)
}

/// The link of the child of a number; empty where there is no such child.
pub(crate) fn link_at(live: &Live, number: u8) -> &[u8]
    ensures { result.now ≡ link_at_of live.now number }
{
    match edge_at(live, number) {
        None => &[],
        Some(edge) => edge.link.as_bytes(),
    }
}
