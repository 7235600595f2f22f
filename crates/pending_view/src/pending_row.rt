//! A row of DBA_2PC_PENDING (Database Reference).
ghost use Rattle.std.specs.Prelude.{◌≡◌, IfOk};
ghost use Rattle.pending_view.specs.Views.{known_number, state_number, pending_kept, pending_live};
ghost use Rattle.pending_view.specs.Order.{place_of};

use crate::Stage;
use crate::stage::stage_of;
use dtx_values::{Advice, Bytes, Duplicate, Listing};
use redo_record::{Decision, KeptRow, State};
use session_tree::Live;
use std::alloc::{AllocError, Global};
use std::marker::Model;
use tran_ids::BranchId;

/// A row of DBA_2PC_PENDING.
#[derive(Drop)]
pub struct PendingRow {
    /// LOCAL_TRAN_ID: the branch.
    pub me: BranchId,
    /// GLOBAL_TRAN_ID: the root of its transaction.
    pub root: BranchId,
    /// STATE.
    pub stage: Stage,
    /// MIXED: whether the branch was forced to another outcome than its transaction has elsewhere.
    pub mixed: bool,
    /// ADVICE, if the session gave any.
    pub advice: Option<Advice>,
    /// TRAN_COMMENT: the comment of the COMMIT.
    pub comment: Bytes,
    /// COMMIT#: the SCN of a branch that has committed or was forced to.
    pub number: Option<u64>,
}

/// Rows of DBA_2PC_PENDING in order.
pub type PendingRows = Listing<PendingRow>;

impl Model for PendingRow {
    ghost use Rattle.pending_view.specs.Views.{Pending};
    ghost use Rattle.pending_view.specs.Stage.{stage_words};

    ghost Value = { Pending };

    ghost view = { λ r. record {
      me = r.me;
      root = r.root;
      state = stage_words r.stage;
      mixed = r.mixed;
      advice = r.advice;
      comment = r.comment;
      number = r.number;
    } };
}

impl PendingRow {
    /// The row of a branch that its node keeps.
    pub(crate) fn of_kept(alloc: Global, kept: &KeptRow) -> Result<PendingRow, AllocError>
        ensures { IfOk result (λ row. row ≡ pending_kept kept.now) }
    {
        let comment = kept.comment.copy(alloc)?;
        Ok(PendingRow {
            me: kept.me,
            root: kept.root,
            stage: stage_of(kept.state),
            mixed: kept.mixed,
            advice: kept.advice,
            comment,
            number: number_of(kept.state, kept.decision),
        })
    }

    /// The row of a live branch that has sent Prepare.
    pub(crate) fn of_live(alloc: Global, live: &Live) -> Result<PendingRow, AllocError>
        ensures { IfOk result (λ row. row ≡ pending_live live.now) }
    {
        let comment = live.comment.copy(alloc)?;
        Ok(PendingRow {
            me: live.me,
            root: live.root,
            stage: Stage::Collecting,
            mixed: false,
            advice: live.advice,
            comment,
            number: None,
        })
    }

    /// What the rows are ordered by: boot, session and seq of the branch.
    pub(crate) fn place(&self) -> (u32, u32, u32)
        ensures { result ≡ place_of self.now.me }
    {
        (self.me.boot, self.me.session, self.me.seq)
    }
}

// COMMIT#, in the states committed and forced commit.
fn number_of(state: State, decision: Option<Decision>) -> Option<u64>
    ensures { result ≡ state_number state decision }
{
    match state {
        State::Committed => commit_of(decision),
        State::ForcedCommit(scn) => Some(scn),
        State::Sealed | State::ForcedRollback => None,
    }
}

fn commit_of(decision: Option<Decision>) -> Option<u64>
    ensures { result ≡ known_number decision }
{
    match decision {
        Some(Decision::Commit(scn)) => Some(scn),
        _ => None,
    }
}
