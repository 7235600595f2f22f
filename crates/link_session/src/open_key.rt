//! What an Open is known by.
ghost use Rattle.std.specs.Prelude.{◌≡◌};

use tran_ids::BranchId;

/// The parent and its number for the edge.
#[derive(Clone, Copy, PartialEq, Eq, Hash)]
pub(crate) struct OpenKey {
    node: u8,
    boot: u32,
    session: u32,
    seq: u32,
    edge: u8,
}

/// What the Open was answered with.
#[derive(Clone, Copy)]
pub(crate) struct Opened {
    pub(crate) child: BranchId,
    pub(crate) strength: u8,
}

impl OpenKey {
    pub(crate) fn of(parent: &BranchId, edge: u8) -> OpenKey
        ensures { result ≡ record { node = parent.now.node; boot = parent.now.boot; session = parent.now.session; seq = parent.now.seq; edge = edge } }
    {
        OpenKey {
            node: parent.node,
            boot: parent.boot,
            session: parent.session,
            seq: parent.seq,
            edge,
        }
    }
}
