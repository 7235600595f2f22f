//! Neighbours of a kept branch, and what it does next in the commit and forget phases.
ghost use Rattle.std.specs.Prelude.{◌≡◌};

use dtx_values::Listing;
use redo_record::Decision;
use tran_ids::BranchId;

/// A neighbour away from the commit point site.
#[derive(Clone, Copy, Debug)]
pub struct Beyond {
    pub branch: BranchId,
    /// Whether it has acknowledged the commit.
    pub acked: bool,
    /// Whether it is the parent, and not a child.
    pub is_parent: bool,
}

/// Neighbours away from the site: the parent first, then the children in order of reference.
pub type Beyonds = Listing<Beyond>;

/// What a kept branch does about a decision, an Ack or Forgotten.
#[derive(Clone, Copy, Debug)]
pub enum Next {
    /// Nothing.
    Rest,
    /// It is sealed, and takes the decision.
    End(Decision),
    /// It was forced, and notes the decision.
    Meet { decision: Decision, mixed: bool },
    /// Everybody beyond has acknowledged: it acknowledges toward the site.
    AckToward,
    /// It forgets, and tells those beyond.
    Forget,
    /// It answers one that acknowledges after it has forgotten.
    SayForgotten,
    /// It acknowledges a commit that comes again.
    SayAck,
}
