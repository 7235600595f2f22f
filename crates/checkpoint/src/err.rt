//! Why two logs were not made, or not loaded.
use redo_log::{LoadWhy, MakeWhy};

/// Two logs that were not made.
#[derive(Drop)]
pub struct PairMakeErr<D> {
    /// The first disk that was given.
    pub first: D,
    /// The second disk that was given.
    pub second: D,
    /// Why a log was not made.
    pub why: MakeWhy,
}

/// Two logs that were not loaded.
#[derive(Drop)]
pub struct PairErr<D> {
    /// The first disk that was given.
    pub first: D,
    /// The second disk that was given.
    pub second: D,
    /// Why a log was not loaded.
    pub why: LoadWhy,
}
