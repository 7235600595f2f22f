//! The nodes of the tests.
ghost use Rattle.std.specs.Prelude.{IfSome};
ghost use Rattle.lone_node.specs.Played.{IsSmallPlace};

use dtx_values::{Listing, Name, Names};
use redo_record::Place;
use std::alloc::Global;

/// The nodes of the tests, in the order of their numbers.
const NODES: [&[u8]; 3] = [b"SALES", b"WAREHOUSE", b"HQ"];

/// The names of the nodes.
fn names(alloc: Global) -> Option<Names> {
    let mut names = Vec::new(alloc);
    for name in NODES {
        names.push(Name::from_bytes(alloc, name).ok()?).ok()?;
    }
    Some(Listing::of(names))
}

/// The strength of the node of a number.
fn strength_of(number: u8) -> u8 {
    match number {
        1 => 100,
        2 => 140,
        _ => 75,
    }
}

/// The place of the node of a number. None where memory runs out.
pub(crate) fn place(alloc: Global, number: u8) -> Option<Place>
    ensures { IfSome result IsSmallPlace }
{
    match names(alloc) {
        Some(names) if names.as_slice().len() <= 16 => Some(Place {
            names,
            number,
            strength: strength_of(number),
            links: 4,
            undo: 64,
        }),
        _ => None,
    }
}
