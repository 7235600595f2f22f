//! Why a call of a log failed.
ghost use Rattle.std.specs.Prelude.{◌≡◌};
ghost use Rattle.redo_log.specs.declared.err.LogErr.TheVariants as of_append;
ghost use Rattle.redo_log.specs.declared.err.MakeWhy.TheVariants as of_make;
ghost use Rattle.redo_log.specs.declared.err.LoadWhy.TheVariants as of_load;

use block_disk::Failed;
use std::alloc::{AllocError, AllocFailed};

/// Why a body was not appended.
#[derive(Clone, Copy, Debug, PartialEq, Eq)]
pub enum LogErr {
    /// The disk failed, now or in an earlier append.
    Fault,
    /// There was no room on the disk, or no memory; nothing was done.
    NoMemory,
    /// The body is longer than a log takes; nothing was done.
    TooLong,
}

/// Why a log was not made.
#[derive(Clone, Copy, Debug, PartialEq, Eq)]
pub enum MakeWhy {
    /// The disk failed.
    Fault,
    /// There was no room on the disk; nothing was done.
    NoMemory,
}

/// Why a log was not loaded.
#[derive(Clone, Copy, Debug, PartialEq, Eq)]
pub enum LoadWhy {
    /// The disk failed.
    Fault,
    /// The disk's bytes are no log.
    NotALog,
    /// There was no memory for the bodies.
    NoMemory,
}

/// A log that was not made.
#[derive(Drop)]
pub struct MakeErr<D> {
    /// The disk that was given.
    pub disk: D,
    /// Why no log was made.
    pub why: MakeWhy,
}

/// A log that was not loaded.
#[derive(Drop)]
pub struct LoadErr<D> {
    /// The disk that was given.
    pub disk: D,
    /// Why no log was loaded.
    pub why: LoadWhy,
}

impl From<Failed> for LogErr {
    ghost from_gives = { λ _ e. e ≡ of_append.Fault };

    fn from(_: Failed) -> LogErr {
        LogErr::Fault
    }
}

impl From<AllocError> for LogErr {
    ghost from_gives = { λ _ e. e ≡ of_append.NoMemory };

    fn from(_: AllocError) -> LogErr {
        LogErr::NoMemory
    }
}

impl From<Failed> for MakeWhy {
    ghost from_gives = { λ _ e. e ≡ of_make.Fault };

    fn from(_: Failed) -> MakeWhy {
        MakeWhy::Fault
    }
}

impl From<AllocError> for MakeWhy {
    ghost from_gives = { λ _ e. e ≡ of_make.NoMemory };

    fn from(_: AllocError) -> MakeWhy {
        MakeWhy::NoMemory
    }
}

impl From<Failed> for LoadWhy {
    ghost from_gives = { λ _ e. e ≡ of_load.Fault };

    fn from(_: Failed) -> LoadWhy {
        LoadWhy::Fault
    }
}

impl From<AllocError> for LoadWhy {
    ghost from_gives = { λ _ e. e ≡ of_load.NoMemory };

    fn from(_: AllocError) -> LoadWhy {
        LoadWhy::NoMemory
    }
}

impl<T: Drop> From<AllocFailed<T>> for LoadWhy {
    ghost from_gives = { λ _ e. e ≡ of_load.NoMemory };

    fn from(_: AllocFailed<T>) -> LoadWhy {
        LoadWhy::NoMemory
    }
}
