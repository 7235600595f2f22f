//! Why there is no node, and why a turn came to no end.
ghost use Rattle.std.specs.Prelude.{◌≡◌};
ghost use Rattle.redo_log.specs.declared.err.MakeWhy.TheVariants as logs;
ghost use Rattle.record_log.specs.declared.err.LoadWhy.TheVariants as loads;
ghost use Rattle.record_log.specs.declared.err.AppendErr.TheVariants as appends;
ghost use Rattle.node_disk.specs.declared.err.MakeWhy.TheVariants as makes;

use node_points::Passes;
use record_log::{AppendErr, LoadWhy};
use redo_record::RedoRecord;
use wire_msg::Input;

/// Why a node was not made or started.
#[derive(Clone, Copy)]
pub enum MakeWhy {
    /// The disk failed.
    Fault,
    /// There was no memory, or no room on the disk.
    NoMemory,
}

/// A node that was not made or started.
#[derive(Drop)]
pub struct MakeErr<D> {
    /// The disk that was given.
    pub disk: D,
    /// Why there is no node.
    pub why: MakeWhy,
}

/// Where a turn was cut.
#[derive(Clone, Copy, PartialEq, Eq)]
pub enum CutAt {
    /// A point was reached before the record was written: the disk was not called.
    BeforeRecord,
    /// The disk failed while the record was written: it has the record, or has not.
    InAppend,
    /// A point was reached after the record was written: the disk has it.
    AfterRecord,
}

/// A turn that was cut: nothing of it is told but what came, and the places that it passes.
#[derive(Drop)]
pub struct CutTurn {
    /// What came, as it was read.
    pub input: Input,
    /// The record of the turn, where there is one.
    pub tried: Option<RedoRecord>,
    /// The places that it passes.
    pub passes: Option<Passes>,
    /// Where it was cut.
    pub at: CutAt,
}

/// Why a turn came to no end. The node takes no further turn.
#[derive(Drop)]
pub enum TurnErr {
    /// A point was reached, before the record was written or after, or the disk failed while it was written.
    Cut(CutTurn),
    /// There was no memory, or no room: on the disk, or for a count in a message or a record. The disk is as it was.
    NoMemory,
}

/// Why the record of a turn is not told: the turn is cut, or there was no room.
#[derive(Clone, Copy)]
pub(crate) enum Unwritten {
    Cut(CutAt),
    NoMemory,
}

/// Why no node was made whose log was not made.
pub(crate) fn create_why(why: redo_log::MakeWhy) -> MakeWhy
    ensures fault { result ≡ makes.Fault → why ≡ logs.Fault }
    ensures memory { result ≡ makes.NoMemory → why ≡ logs.NoMemory }
{
    match why {
        redo_log::MakeWhy::Fault => MakeWhy::Fault,
        redo_log::MakeWhy::NoMemory => MakeWhy::NoMemory,
    }
}

/// Why no node was started whose log was not loaded.
pub(crate) fn load_why(why: LoadWhy) -> MakeWhy
    ensures fault { result ≡ makes.Fault → why ≡ loads.Fault }
    ensures memory { result ≡ makes.NoMemory → why ≡ loads.NoMemory }
{
    match why {
        LoadWhy::Fault => MakeWhy::Fault,
        LoadWhy::NoMemory => MakeWhy::NoMemory,
    }
}

/// Why there is no node whose start was not written.
pub(crate) fn append_why(why: AppendErr) -> MakeWhy
    ensures fault { result ≡ makes.Fault → why ≡ appends.Fault }
    ensures memory { result ≡ makes.NoMemory → why ≡ appends.NoMemory }
{
    match why {
        AppendErr::Fault => MakeWhy::Fault,
        AppendErr::NoMemory => MakeWhy::NoMemory,
    }
}
