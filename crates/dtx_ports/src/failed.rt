//! The failure of one call.
use thiserror::Error;

/// A call of a source or a sink failed; the end's count of faults says so too.
#[derive(Clone, Copy, Debug, PartialEq, Eq, Error)]
#[error("a source or a sink failed")]
pub struct Failed;
