//! STATE of DBA_2PC_PENDING.
ghost use Rattle.std.specs.Prelude.{◌≡◌};
ghost use Rattle.pending_view.specs.Stage.{stage_of as stage_of_state, stage_words};

use redo_record::State;

/// How far a pending transaction is at its node.
#[derive(Clone, Copy, Debug, PartialEq, Eq)]
pub enum Stage {
    /// The branch has sent Prepare to its children, and waits for their answers.
    Collecting,
    /// The branch is in doubt.
    Prepared,
    /// The branch has committed, and not all its neighbours have acknowledged that.
    Committed,
    /// An administrator committed it.
    ForcedCommit,
    /// An administrator rolled it back.
    ForcedRollback,
}

impl Stage {
    /// The words that the view shows.
    pub fn words(self) -> &'static [u8]
        ensures { result.now ≡ stage_words self }
    {
        match self {
            Stage::Collecting => b"collecting",
            Stage::Prepared => b"prepared",
            Stage::Committed => b"committed",
            Stage::ForcedCommit => b"forced commit",
            Stage::ForcedRollback => b"forced rollback",
        }
    }
}

/// The stage of a branch that its node keeps.
pub(crate) fn stage_of(state: State) -> Stage
    ensures { result ≡ stage_of_state state }
{
    match state {
        State::Sealed => Stage::Prepared,
        State::Committed => Stage::Committed,
        State::ForcedCommit(_scn) => Stage::ForcedCommit,
        State::ForcedRollback => Stage::ForcedRollback,
    }
}
