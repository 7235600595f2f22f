//! Why a pool takes no more bytes.

/// An owner needs more extents than are free: so many beside those that it has, where so many are free.
#[derive(Clone, Copy, Debug, PartialEq, Eq)]
pub struct Full {
    pub need: u64,
    pub free: u64,
}
