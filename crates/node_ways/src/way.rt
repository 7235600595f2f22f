//! Where a statement goes.

use dtx_values::{Name, Refusal, Table};

/// Where a statement goes from a branch.
#[derive(Drop)]
pub enum Way<'a> {
    /// It runs at the branch's node, over this table.
    RunsHere(&'a Table),
    /// It goes on to a child that is there.
    Over {
        /// The child's number, from 1.
        edge: u8,
        /// The name of the table at the child's node.
        table: &'a Name,
    },
    /// It goes over a link that the branch uses for the first time.
    Through {
        /// The number of the node that the link leads to, from 1.
        node: u8,
        /// The link.
        link: &'a Name,
        /// The name of the table at that node.
        table: &'a Name,
    },
    /// It goes nowhere: it is refused.
    NowhereTo(Refusal),
}
