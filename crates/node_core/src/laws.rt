//! Laws alone.
ghost use Rattle.node_core.specs.Refused.{RefusedCallsLeaveAll};

/// A call of a client that is refused in the turn in which it came has changed no row and no lock, and the turn writes no record.
#[tactic(auto, using(crate::proofs::RefusedLaws::refused_calls_leave_all))]
pub fn refused_calls_leave_all()
    ensures { RefusedCallsLeaveAll }
{}
