//! How one body takes the place of a list.
ghost use Rattle.std.specs.Prelude.{◌≡◌, ◌<◌, ◌+◌, ◌∷◌, true, length, drop, OnOk, OnErr};
ghost use Rattle.block_disk.specs.Images.{AtEachMoment, IsOnly};
ghost use Rattle.block_disk.specs.Spare.{HasRoom, spent};
ghost use Rattle.redo_log.specs.Cells.{held, IsLogTo};
ghost use Rattle.redo_log.specs.Log.{with_gate};
ghost use Rattle.redo_log.specs.Restart.{shut_calls, restart_calls, MayBeShut, MayBeReplaced, IsShutByPlan, IsReplacedByPlan};
ghost use Rattle.redo_log.specs.Runs.{HasRun, MetFault};
ghost use Rattle.redo_log.specs.Stands.{is_open};

use crate::gate::CLOSED;
use crate::log::store;
use block_disk::{Disk, Failed};

/// Shuts the list that begins at the disk's first gate.
fn shut<D: Disk>(disk: &mut D) -> Result<(), Failed>
    requires open { is_open (D.content disk.old) ≡ true }
    requires room { HasRoom 1 1 (D.spare disk.old) }
    requires durable { IsOnly (D.content disk.old) (D.images disk.old) }

    ensures shut { OnOk result (D.content disk.new ≡ 0 ∷ drop 1 (D.content disk.old)) }
    ensures durable { OnOk result (IsOnly (D.content disk.new) (D.images disk.new)) }
    ensures any_moment { AtEachMoment D.moment D.images_since disk.old disk.new (MayBeShut (D.content disk.old)) }
    ensures spare { OnOk result (D.spare disk.new ≡ spent 1 (D.spare disk.old)) }
    ensures run { OnOk result (HasRun D.Disk shut_calls disk.old disk.new) }
    ensures failed { OnErr result (MetFault D.Disk shut_calls disk.old disk.new) }
    ensures left { OnErr result (IsShutByPlan (D.plan disk.old) (D.content disk.old) (D.content disk.new)) }
{
    disk.write_at(0, &[CLOSED])?;
    // What is written next would else stand in the cells of the old list.
    disk.sync()
}

/// Writes bytes after the first gate, and then opens it. A list with bodies, which ends elsewhere, is shut before.
pub(crate) fn replace<D: Disk>(disk: &mut D, end: u64, behind: &[u8]) -> Result<(), Failed>
    requires list { IsLogTo end (held (D.content disk.old)) (D.content disk.old) }
    requires some { 0 < length behind.now }
    requires room { HasRoom (length behind.now + 2) 3 (D.spare disk.old) }
    requires durable { IsOnly (D.content disk.old) (D.images disk.old) }

    ensures stored { OnOk result (D.content disk.new ≡ with_gate 1 0 behind.now (D.content disk.old)) }
    ensures durable { OnOk result (IsOnly (D.content disk.new) (D.images disk.new)) }
    ensures any_moment { AtEachMoment D.moment D.images_since disk.old disk.new (MayBeReplaced behind.now (D.content disk.old)) }
    ensures run { OnOk result (HasRun D.Disk (restart_calls (held (D.content disk.old))) disk.old disk.new) }
    ensures failed { OnErr result (MetFault D.Disk (restart_calls (held (D.content disk.old))) disk.old disk.new) }
    ensures left { OnErr result (IsReplacedByPlan (D.plan disk.old) (held (D.content disk.old)) behind.now (D.content disk.old) (D.content disk.new)) }
{
    if end == 0 {
        return store(disk, 0, behind);
    }
    shut(disk)?;
    store(disk, 0, behind)
}
