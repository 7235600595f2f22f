//! What is drawn for each transaction.
ghost use Rattle.std.specs.Prelude.{◌≡◌, ◌<◌, ◌≤◌};
ghost use Rattle.make_script.specs.Draws.{next_draw, drawn as drawn_of, other_node as other_node_of};

/// A transaction of the script.
#[derive(Clone, Copy, Debug)]
pub struct Transaction {
    /// Its number, from 1, which is the key of its rows.
    pub number: u32,
    /// The number of the node where it begins.
    pub root: u32,
    /// The number of the node where its other row goes.
    pub other: u32,
    /// The value of its rows.
    pub value: u32,
}

/// The draw after this one.
pub fn next(draw: u32) -> u32
    requires { draw < 65537 }
    ensures is { result ≡ next_draw draw }
    ensures below { result < 65537 }
{
    (75 * draw + 74) % 65_537
}

// The other nodes in order, this place among them.
fn other_node(root: u32, place: u32) -> u32
    requires { place < 4 }
    ensures is { result ≡ other_node_of root place }
    ensures most { result ≤ 4 }
{
    if place < root { place } else { place + 1 }
}

impl Transaction {
    /// The transaction of this number, by three draws.
    pub fn drawn(number: u32, first: u32, second: u32, third: u32) -> Transaction
        ensures is { result ≡ drawn_of number first second third }
        ensures root { result.root ≤ 4 }
        ensures other { result.other ≤ 4 }
    {
        let root = 1 + first % 4;
        Transaction {
            number,
            root,
            other: other_node(root, 1 + second % 3),
            value: third % 1_000,
        }
    }
}
