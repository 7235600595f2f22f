//! The lives of nodes in tests: how they come to a turn, and how they end.
use lone_node::{LoneNode, Step, Turn};
use std::alloc::Global;

/// The first of these turns that is not as expected, of a node that ends after them. The first of all where there is no node.
pub(crate) fn play_out(alloc: Global, node: Option<LoneNode>, parts: &[&[Step]]) -> Option<Turn> {
    match node {
        Some(mut node) => {
            let other = node.play(alloc, parts);
            node.end();
            other
        }
        None => Some((0, 0)),
    }
}

/// The node of a number after these turns. None where one is not as expected.
pub(crate) fn played(alloc: Global, number: u8, parts: &[&[Step]]) -> Option<LoneNode> {
    let mut node = LoneNode::make(alloc, number)?;
    if node.play(alloc, parts).is_none() {
        Some(node)
    } else {
        node.end();
        None
    }
}

/// The same after a stop and a start.
pub(crate) fn restarted(alloc: Global, number: u8, parts: &[&[Step]]) -> Option<LoneNode> {
    played(alloc, number, parts)?.restart(alloc)
}

/// Whether a node whose turn was cut as it should be starts again, and goes on with these turns.
pub(crate) fn goes_on(alloc: Global, node: LoneNode, is_cut: bool, parts: &[&[Step]]) -> bool {
    if is_cut {
        play_out(alloc, node.restart(alloc), parts).is_none()
    } else {
        node.end();
        false
    }
}
