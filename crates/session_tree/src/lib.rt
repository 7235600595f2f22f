//! Live branches and their session trees: what a branch weighs, the walk to the commit point site, the room in a tree.
//!
//! Children have numbers from 1, in the order in which they were opened. `specs/Tree.antt` has the definitions.
#![tactic(auto)]

mod act;
mod edge;
mod live;
mod tree;

pub use act::{Act, Walk};
pub use edge::{Edge, Edges, Vote};
pub use live::{Live, Lives, Phase};
pub use tree::{add_edge, count, room, step, weight};
