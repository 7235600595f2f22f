//! The row that a purge names.
ghost use Rattle.std.specs.Prelude.{◌≡◌, IfOk};
ghost use Rattle.force_cmds.specs.Named.{is_purged_by as is_purged, may_purge as may_purge_row, purged};

use crate::finding::{is_local, is_sealed};
use redo_record::KeptRow;
use std::alloc::{AllocError, Global};
use tran_ids::BranchId;

/// The branch whose row a purge hides: the first that is shown, has this local id, and is mixed for PURGE_MIXED, or
/// committed or forced for PURGE_LOST_DB_ENTRY. Fails where memory runs out.
pub fn may_purge(
    alloc: Global,
    kept: &[KeptRow],
    id: &[u8],
    mixed: bool,
) -> Result<Option<BranchId>, AllocError>
    ensures { IfOk result (λ found. found ≡ purged mixed kept.now id.now) }
{
    for row in kept {
        if may_purge_it(alloc, row, id, mixed)? {
            return Ok(Some(row.me));
        }
    }
    Ok(None)
}

fn is_purged_by(row: &KeptRow, mixed: bool) -> bool
    ensures { result ≡ is_purged mixed row.now }
{
    if mixed {
        row.mixed
    } else {
        !is_sealed(row.state)
    }
}

fn may_purge_it(alloc: Global, row: &KeptRow, id: &[u8], mixed: bool) -> Result<bool, AllocError>
    ensures { IfOk result (λ may. may ≡ may_purge_row mixed id.now row.now) }
{
    let fits = is_local(alloc, &row.me, id)?;
    Ok(!row.hidden && fits && is_purged_by(row, mixed))
}
