//! A pool of undo extents, each of 4,096 bytes, which hold a stream of bytes for each owner.
//!
//! An extent in use has one owner. An owner's stream stands in its extents, oldest first, each full but for the last: so an
//! owner has its bytes over 4,096, rounded up, and no two owners share an extent. Who needs more extents than are free is
//! refused (ORA-30036). All memory is taken as the pool is made, and no call after that takes any.
//! (Database Concepts, "Logical Storage Structures": undo segments and their extents; Database Administrator's Guide,
//! "Managing Undo".)
#![tactic(auto)]

mod extent;
mod full;
mod laws;
mod pool;

pub use full::Full;
pub use laws::extents_add_up;
pub use pool::Pool;
