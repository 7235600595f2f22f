//! The trace of a run, which takes only what is due, and the book of its records.
//!
//! A run is a function of its nodes and its script: each happening is the one that the definitions of run_rules say comes
//! next. [`Trace::push`] asks for that, and happenings and book grow together or not at all, so whatever fails elsewhere,
//! the trace that is left is that of a run of the script.
#![tactic(auto)]

mod trace;

pub use trace::{RunRecord, Trace};
