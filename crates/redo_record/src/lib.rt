//! Redo records, and what they leave of branches and catalog.
//!
//! A node writes at most one record a turn. What they leave, oldest first, is a [`Durable`]: its catalog, its settings and
//! the branches that it keeps rows of ([`KeptRows`]). [`Durable::apply`] takes one more record in, and [`Durable::of`] all
//! of them, from which a start makes it again.
#![tactic(auto)]

mod decision;
mod durable;
mod image;
mod kept;
mod kept_rows;
mod news;
mod place;
mod record;
mod row;
mod search;

pub use decision::Decision;
pub use durable::{Durable, KeptRow, Kid, Kids, State};
pub use image::{Image, KeptItem, KeptState};
pub use kept_rows::KeptRows;
pub use place::{Place, Places};
pub use record::{Decided, Param, Peer, Peers, RedoRecord, Sealed, Toward};
