//! The search for the rows of a branch among rows in the order of their branches.
ghost use Rattle.std.specs.Prelude.{◌≡◌, ◌≤◌, not, position, slice_get, length};
ghost use Rattle.std.specs.Option.{option_copied};
ghost use Rattle.std.specs.List.{position_or_len};
ghost use Rattle.tran_ids.specs.Branch.{branch_below};
ghost use Rattle.redo_record.specs.Order.{AreInOrder};
ghost use Rattle.redo_record.specs.Leaving.{leaves as leaves_by};

use crate::KeptRow;
use tran_ids::BranchId;

/// Which rows of a branch go.
#[derive(Clone, Copy, Debug)]
pub(crate) enum Leaving {
    /// Any.
    Any,
    /// Those that are not mixed.
    Unmixed,
}

/// Whether a row goes.
pub(crate) fn leaves(row: &KeptRow, me: &BranchId, leaving: Leaving) -> bool
    ensures { result ≡ leaves_by leaving me.now row.now }
{
    match leaving {
        Leaving::Any => row.me.is(me),
        Leaving::Unmixed => row.me.is(me) && !row.mixed,
    }
}

/// In front of the first row whose branch this one comes before.
pub(crate) fn place_of(rows: &[KeptRow], me: &BranchId) -> usize
    requires { AreInOrder rows.now }
    ensures first { result ≡ position_or_len (λ row. branch_below me.now row.me) rows.now }
    ensures within { result ≤ length rows.now }
{
    rows.partition_point(|row| !me.is_before(&row.me))
}

/// In front of the first row whose branch does not come before this one.
pub(crate) fn start_of(rows: &[KeptRow], me: &BranchId) -> usize
    requires { AreInOrder rows.now }
    ensures first { result ≡ position_or_len (λ row. not (branch_below row.me me.now)) rows.now }
    ensures within { result ≤ length rows.now }
{
    rows.partition_point(|row| row.me.is_before(me))
}

/// Where the first row of a branch stands that goes.
pub(crate) fn position_of(rows: &[KeptRow], me: &BranchId, leaving: Leaving) -> Option<usize>
    requires { AreInOrder rows.now }
    ensures { result ≡ position (leaves_by leaving me.now) rows.now }
{
    let (front, _) = rows.split_at(place_of(rows, me));
    let start = start_of(front, me);
    let (_, run) = front.split_at(start);
    match position_in(run, me, leaving) {
        None => None,
        Some(place) => Some(start + place),
    }
}

// The first of these rows that goes.
fn position_in(run: &[KeptRow], me: &BranchId, leaving: Leaving) -> Option<usize>
    ensures { result ≡ position (leaves_by leaving me.now) run.now }
{
    run.iter().position(|row| leaves(row, me, leaving))
}

/// The row at a place.
pub(crate) fn row_at(rows: &[KeptRow], place: usize) -> Option<&KeptRow>
    ensures { option_copied result ≡ slice_get rows.now place }
{
    rows.get(place)
}
