//! Where a statement goes from a branch: what its table's name means at a node, the child or the link that leads to the
//! table, and the statement as it is passed on. Nothing is copied but what is passed on.
//! (Database Administrator's Guide, "Managing a Distributed Database": database links and synonyms.)
#![tactic(auto)]

mod named;
mod passing;
mod routing;
mod target;
mod way;

pub use named::Named;
pub use passing::passed_on;
pub use routing::{is_write, way_of};
pub use way::Way;
