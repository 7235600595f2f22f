//! Why a call of a log of records failed.
ghost use Rattle.std.specs.Prelude.{◌≡◌};
ghost use Rattle.redo_log.specs.declared.err.LoadWhy.TheVariants as of_bodies;
ghost use Rattle.record_log.specs.declared.err.AppendErr.TheVariants as of_append;
ghost use Rattle.record_log.specs.declared.err.LoadWhy.TheVariants as of_load;

use std::alloc::AllocError;

/// Why a record was not appended.
#[derive(Clone, Copy, Debug, PartialEq, Eq)]
pub enum AppendErr {
    /// The disk failed, now or in an earlier append.
    Fault,
    /// There was no room on the disk, or no memory; nothing was done.
    NoMemory,
}

/// Why a log was not loaded.
#[derive(Clone, Copy, Debug, PartialEq, Eq)]
pub enum LoadWhy {
    /// The disk failed.
    Fault,
    /// There was no memory for the records.
    NoMemory,
}

/// A log that was not loaded.
#[derive(Drop)]
pub struct LoadErr<D> {
    /// The disk that was given.
    pub disk: D,
    /// Why no log was loaded.
    pub why: LoadWhy,
}

impl From<AllocError> for AppendErr {
    ghost from_gives = { λ _ e. e ≡ of_append.NoMemory };

    fn from(_: AllocError) -> AppendErr {
        AppendErr::NoMemory
    }
}

/// Why the records are not loaded of a disk whose log is not: the disk holds one.
pub(crate) fn load_why(why: redo_log::LoadWhy) -> LoadWhy
    requires { why ≡ of_bodies.NotALog → ⊥ }
    ensures fault { result ≡ of_load.Fault → why ≡ of_bodies.Fault }
    ensures memory { result ≡ of_load.NoMemory → why ≡ of_bodies.NoMemory }
{
    match why {
        redo_log::LoadWhy::Fault => LoadWhy::Fault,
        redo_log::LoadWhy::NoMemory => LoadWhy::NoMemory,
        redo_log::LoadWhy::NotALog => unreachable!(),
    }
}
