//! What a kept branch does about a decision, an Ack, Forgotten, and a Prepare that comes again.
ghost use Rattle.std.specs.Prelude.{◌≡◌, map};
ghost use Rattle.commit_forget.specs.Next.{is_mixed as is_mixed_of, first_decision as first_decision_of, known_decision as known_decision_of, next_on_decision, knows_commit as knows_commit_of, ack_counts as ack_counts_of, acks_kid, acked_by, next_on_ack, acked_next, after_ack, next_on_forgotten, is_asked_again as is_asked_again_of};

use crate::Next;
use crate::neighbors::{all_acked, is_beyond, is_branch};
use dtx_values::Listing;
use redo_record::{Decision, KeptRow, Kid, State};
use std::alloc::Global;
use std::mem;
use tran_ids::BranchId;

/// What a kept branch does about Committed, RolledBack or Rollback. Only the neighbour toward the site is heard. The first
/// decision ends a sealed branch, and is noted by a forced one; Committed again is acknowledged once all beyond have
/// acknowledged.
#[tactic(auto, unfolding(crate::specs::Next::next_on_decision))]
pub fn on_decision(row: &KeptRow, from: &BranchId, decision: Decision) -> Next
    ensures { result ≡ next_on_decision row.now from.now decision }
{
    if !is_branch(from, row.toward) {
        return Next::Rest;
    }
    match row.decision {
        None => first_decision(row.state, decision),
        Some(known) => known_decision(row, known, decision),
    }
}

/// What a kept branch does about an Ack. It counts at a branch that knows the commit, from a neighbour beyond, and is
/// noted in memory alone; any other changes nothing. When all beyond have acknowledged, the site forgets and another
/// branch acknowledges toward the site; one that has forgotten says so. No memory is taken.
pub fn on_ack(alloc: Global, row: &mut KeptRow, from: &BranchId) -> Next
    ensures next { result ≡ acked_next row.old from.now }
    ensures after { row.new ≡ after_ack row.old from.now }
{
    if ack_counts(row, from) {
        count_ack(alloc, row, from);
        after_count(row)
    } else {
        Next::Rest
    }
}

/// What a kept branch does about Forgotten: where it knows the commit and toward has forgotten, it forgets too, once.
#[tactic(auto, unfolding(crate::specs::Next::next_on_forgotten))]
pub fn on_forgotten(row: &KeptRow, from: &BranchId) -> Next
    ensures { result ≡ next_on_forgotten row.now from.now }
{
    if knows_commit(row.decision) && is_branch(from, row.toward) && !row.forgot {
        Next::Forget
    } else {
        Next::Rest
    }
}

/// Whether a Prepare that comes again is answered Prepared again: at a sealed branch that knows no decision, where it is
/// from the parent and the parent is toward.
pub fn is_asked_again(row: &KeptRow, from: &BranchId) -> bool
    ensures { result ≡ is_asked_again_of row.now from.now }
{
    row.decision.is_none() && is_branch(from, row.parent) && is_branch(from, row.toward)
}

/// Whether a forced outcome and a decision differ. A branch that was not forced is never mixed.
pub fn is_mixed(state: State, decision: Decision) -> bool
    ensures { result ≡ is_mixed_of state decision }
{
    match (state, decision) {
        (State::ForcedCommit(_), Decision::Rollback) => true,
        (State::ForcedRollback, Decision::Commit(_)) => true,
        _ => false,
    }
}

fn first_decision(state: State, decision: Decision) -> Next
    ensures { result ≡ first_decision_of state decision }
{
    match state {
        State::Sealed => Next::End(decision),
        State::Committed => Next::Rest,
        State::ForcedCommit(_) | State::ForcedRollback => Next::Meet {
            decision,
            mixed: is_mixed(state, decision),
        },
    }
}

fn known_decision(row: &KeptRow, known: Decision, decision: Decision) -> Next
    ensures { result ≡ known_decision_of row.now known decision }
{
    match (known, decision) {
        (Decision::Commit(_), Decision::Commit(_)) if all_acked(row) => Next::SayAck,
        _ => Next::Rest,
    }
}

/// Whether it is the decision to commit.
pub fn knows_commit(decision: Option<Decision>) -> bool
    ensures { result ≡ knows_commit_of decision }
{
    matches!(decision, Some(Decision::Commit(_)))
}

fn ack_counts(row: &KeptRow, from: &BranchId) -> bool
    ensures { result ≡ ack_counts_of row.now from.now }
{
    knows_commit(row.decision) && is_beyond(row, from)
}

fn ack_if_it_is(kid: &mut Kid, from: &BranchId)
    ensures { kid.new ≡ acks_kid from.now kid.old }
{
    if kid.branch.is(from) {
        kid.acked = true;
    }
}

fn ack_kids(kids: &mut Vec<Kid>, from: &BranchId)
    ensures { kids.new.items ≡ map (acks_kid from.now) kids.old.items }
{
    for kid in kids.iter_mut() {
        ack_if_it_is(kid, from);
    }
}

// The neighbour has acknowledged.
fn count_ack(alloc: Global, row: &mut KeptRow, from: &BranchId)
    ensures { row.new ≡ acked_by row.old from.now }
{
    let mut kids = mem::replace(&mut row.children, Listing::new(alloc)).into_vec();
    ack_kids(&mut kids, from);
    row.children = Listing::of(kids);
    row.parent_acked = row.parent_acked || is_branch(from, row.parent);
}

// What is done once an Ack is counted.
#[tactic(auto, unfolding(crate::specs::Next::next_on_ack))]
fn after_count(row: &KeptRow) -> Next
    ensures { result ≡ next_on_ack row.now }
{
    if row.forgot {
        Next::SayForgotten
    } else if !all_acked(row) {
        Next::Rest
    } else if row.toward.is_none() {
        Next::Forget
    } else {
        Next::AckToward
    }
}
