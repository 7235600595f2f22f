//! What redo records make of the rows of kept branches.
ghost use Rattle.std.specs.Prelude.{◌≡◌, ◌≤◌, length, OnOk, OnErr};
ghost use Rattle.std.specs.List.{insert};
ghost use Rattle.redo_record.specs.Lists.{change_where, drop_where};
ghost use Rattle.redo_record.specs.Kept.{stands_at, add_kept, keep_decided, ended, forced_state, forced, met_as, met, forgotten, hidden, kept_after};
ghost use Rattle.redo_record.specs.Order.{AreInOrder};
ghost use Rattle.redo_record.specs.Leaving.{leaves};

use crate::news::{News, tell_branch};
use crate::row::{decided_row, has_neighbors, sealed_row};
use crate::search::{Leaving, place_of, position_of};
use crate::{Decision, KeptRow, RedoRecord, State};
use std::alloc::{AllocError, Global};
use tran_ids::BranchId;

/// Makes of rows in order what is left of them after one more record; they stay in order. Fails where memory runs out, and
/// then they stay as they are.
#[tactic(auto, unfolding(crate::specs::Kept::kept_after))]
pub(crate) fn apply_record(
    kept: &mut Vec<KeptRow>,
    alloc: Global,
    item: &RedoRecord,
) -> Result<(), AllocError>
    requires { AreInOrder kept.old.items }
    ensures ok { OnOk result (kept.new.items ≡ kept_after kept.old.items item.now) }
    ensures err { OnErr result (kept.new.items ≡ kept.old.items) }
{
    match item {
        RedoRecord::Sealed(sealed) => add(kept, sealed_row(alloc, sealed)?)?,
        RedoRecord::Decided(decided) => decide(kept, decided_row(alloc, decided)?)?,
        RedoRecord::Ended { me, decision } => end(kept, me, decision),
        RedoRecord::Forced {
            me,
            decision,
            given: _given,
        } => force(kept, me, decision),
        RedoRecord::Met {
            me,
            decision,
            mixed,
        } => meet(kept, me, decision, *mixed),
        RedoRecord::Forgot(me) => forget(kept, me),
        RedoRecord::Hidden(me) => hide(kept, me),
        _ => {}
    }
    Ok(())
}

// Rows stand in the order of their branches.
fn place_for(kept: &[KeptRow], row: &KeptRow) -> usize
    requires { AreInOrder kept.now }
    ensures added { insert kept.now result row.now ≡ add_kept kept.now row.now }
    ensures within { result ≤ length kept.now }
{
    place_of(kept, &row.me)
}

fn add(kept: &mut Vec<KeptRow>, row: KeptRow) -> Result<(), AllocError>
    requires { AreInOrder kept.old.items }
    ensures ok { OnOk result (kept.new.items ≡ add_kept kept.old.items row) }
    ensures err { OnErr result (kept.new.items ≡ kept.old.items) }
{
    let place = place_for(kept, &row);
    kept.insert(place, row)?;
    Ok(())
}

// A decided branch without neighbours is not kept.
fn decide(kept: &mut Vec<KeptRow>, row: KeptRow) -> Result<(), AllocError>
    requires { AreInOrder kept.old.items }
    ensures ok { OnOk result (kept.new.items ≡ keep_decided kept.old.items row) }
    ensures err { OnErr result (kept.new.items ≡ kept.old.items) }
{
    if has_neighbors(&row) {
        add(kept, row)
    } else {
        Ok(())
    }
}

// The rows of a branch that go are taken out, one after the other.
fn drop_rows(kept: &mut Vec<KeptRow>, me: &BranchId, leaving: Leaving)
    requires { AreInOrder kept.old.items }
    ensures { kept.new.items ≡ drop_where (leaves leaving me.now) kept.old.items }
{
    while let Some(place) = position_of(kept, me, leaving) {
        drop(kept.remove(place));
    }
}

fn end(kept: &mut Vec<KeptRow>, me: &BranchId, decision: &Decision)
    requires { AreInOrder kept.old.items }
    ensures { kept.new.items ≡ ended kept.old.items me.now decision.now }
{
    match decision {
        Decision::Commit(scn) => tell_branch(kept, me, News::Commits(*scn)),
        Decision::Rollback => drop_rows(kept, me, Leaving::Any),
    }
}

fn state_of(forced: &Decision) -> State
    ensures { result ≡ forced_state forced.now }
{
    match forced {
        Decision::Commit(scn) => State::ForcedCommit(*scn),
        Decision::Rollback => State::ForcedRollback,
    }
}

// The decision stays unknown.
fn force(kept: &mut Vec<KeptRow>, me: &BranchId, decision: &Decision)
    requires { AreInOrder kept.old.items }
    ensures { kept.new.items ≡ forced kept.old.items me.now decision.now }
{
    tell_branch(kept, me, News::IsForced(state_of(decision)));
}

// A row that is found mixed stays, whatever the decision is.
fn meet(kept: &mut Vec<KeptRow>, me: &BranchId, decision: &Decision, mixed: bool)
    requires { AreInOrder kept.old.items }
    ensures { kept.new.items ≡ met kept.old.items me.now decision.now mixed }
{
    if mixed {
        learn(kept, me, decision, true);
    } else {
        match decision {
            Decision::Commit(_scn) => learn(kept, me, decision, false),
            Decision::Rollback => drop_rows(kept, me, Leaving::Any),
        }
    }
}

fn learn(kept: &mut Vec<KeptRow>, me: &BranchId, decision: &Decision, mixed: bool)
    requires { AreInOrder kept.old.items }
    ensures { kept.new.items ≡ change_where (stands_at me.now) (met_as decision.now mixed) kept.old.items }
{
    let decision = *decision;
    tell_branch(kept, me, News::Learns { decision, mixed });
}

fn forget(kept: &mut Vec<KeptRow>, me: &BranchId)
    requires { AreInOrder kept.old.items }
    ensures { kept.new.items ≡ forgotten kept.old.items me.now }
{
    drop_rows(kept, me, Leaving::Unmixed);
    tell_branch(kept, me, News::Forgets);
}

fn hide(kept: &mut Vec<KeptRow>, me: &BranchId)
    requires { AreInOrder kept.old.items }
    ensures { kept.new.items ≡ hidden kept.old.items me.now }
{
    tell_branch(kept, me, News::IsHidden);
}
