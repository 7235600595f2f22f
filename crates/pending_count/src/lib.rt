//! How many rows DBA_2PC_PENDING has at a node, counted without taking memory: the rows themselves are those of `pending_view`.
#![tactic(auto)]

ghost use Rattle.std.specs.Prelude.{◌≡◌, ◌≤◌, ◌^◌, not, count_by, length};
ghost use Rattle.pending_view.specs.Views.{has_sent_prepare as has_sent_prepare_of, is_working as is_working_in, pending_rows};

use redo_record::KeptRow;
use session_tree::{Live, Phase};

fn is_working(phase: Phase) -> bool
    ensures { result ≡ is_working_in phase }
{
    matches!(phase, Phase::Working)
}

// A branch without children has none to send Prepare to.
fn has_sent_prepare(live: &Live) -> bool
    ensures { result ≡ has_sent_prepare_of live.now }
{
    !is_working(live.phase) && live.edges.as_slice().get(0).is_some()
}

fn count_collecting(lives: &[Live]) -> usize
    ensures is { result ≡ count_by has_sent_prepare_of lives.now }
    ensures few { result ≤ length lives.now }
{
    let mut count = 0;
    for live in lives {
        if has_sent_prepare(live) {
            count += 1;
        }
    }
    count
}

fn count_shown(kept: &[KeptRow]) -> usize
    ensures is { result ≡ count_by (λ s. not s.hidden) kept.now }
    ensures few { result ≤ length kept.now }
{
    let mut count = 0;
    for branch in kept {
        if !branch.hidden {
            count += 1;
        }
    }
    count
}

/// How many rows DBA_2PC_PENDING has at a node with these kept branches and these live ones. It takes no memory.
#[tactic(auto, using(crate::proofs::CountLemmas::rows_counted))]
pub fn count_pending(kept: &[KeptRow], lives: &[Live]) -> u128
    ensures is { result ≡ length (pending_rows kept.now lives.now) }
    ensures few { result ≤ 2 ^ 64 }
{
    // Only for the proof: a slice has fewer than 2^63 items.
    let _most = (kept.len(), lives.len());
    count_collecting(lives) as u128 + count_shown(kept) as u128
}
