//! The messages between the nodes of a run: which are in flight, delivered or lost, which pairs of nodes are cut, which
//! nodes are down, and the orders to lose a message. A message is kept as bytes, and contracts see the message that the
//! bytes spell. What a cut, a stop or an order loses is defined in `specs/Net.antt`.
//!
//! A call that returns an `AllocError` fails where memory runs out, and then nothing has changed.
#![tactic(auto)]

mod bag;
mod flights;
mod lose_next;
mod packet;
mod parcel;
mod route;

pub use bag::{Bag, Sent};
pub use flights::Numbers;
pub use lose_next::LoseNext;
pub use packet::{Fate, Packet};
