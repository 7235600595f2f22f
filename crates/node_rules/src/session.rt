//! Client sessions.
ghost use Rattle.std.specs.Prelude.{◌≡◌};

use dtx_values::{Advice, Answer, Listing};
use tran_ids::BranchId;

/// Which call of a session is pending.
#[derive(Clone, Copy, Debug, PartialEq, Eq)]
pub enum PendingCall {
    /// None.
    NoCall,
    /// A statement that was passed on over a link.
    Statement,
    /// A COMMIT that waits for other nodes.
    Commit,
}

/// A client session.
#[derive(Clone, Copy, Debug)]
pub struct Session {
    /// The number of its newest transaction within this start of the node, and 0 before any.
    pub seq: u32,
    /// The root branch of its transaction, where it has one.
    pub root: Option<BranchId>,
    /// Its advice for branches that become in doubt.
    pub advice: Option<Advice>,
    /// How many calls its newest transaction has had: statements with a table, SAVEPOINT and ROLLBACK TO.
    pub calls: u32,
    /// The code of the answer after which its transaction can only be rolled back.
    pub code: Option<u16>,
    /// Its call that is not answered yet.
    pub call: PendingCall,
}

/// Client sessions, from number 1.
pub type Sessions = Listing<Session>;

/// The end of a client's call.
#[derive(Drop)]
pub struct Finished {
    /// The client's session, 1 to 64.
    pub session: u32,
    /// What the client is answered.
    pub answer: Answer,
}

/// The calls that a turn ends.
pub type Ended = Listing<Finished>;
