//! Where bytes come from and go to.
//!
//! A source gives bytes and a sink takes them. Each keeps a count of its faults, so that whoever answers "the source
//! failed" can be held to it: the count has risen. The ports put a reader or a writer of std under these contracts;
//! the source and the sink in memory fail at the calls that a list names.
#![tactic(auto)]

mod call_plan;
mod count;
mod failed;
mod mem_sink;
mod mem_source;
mod read_err;
mod read_port;
mod sink;
mod source;
mod write_port;

pub use failed::Failed;
pub use mem_sink::MemSink;
pub use mem_source::MemSource;
pub use read_err::ReadErr;
pub use read_port::ReadPort;
pub use sink::{Sink, write_whole};
pub use source::{Source, read_whole};
pub use write_port::WritePort;
