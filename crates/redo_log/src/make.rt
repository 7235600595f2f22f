//! A new log on an empty disk.
ghost use Rattle.std.specs.Prelude.{◌≡◌, [], ◌∷◌, OnOk, IsErrOf};
ghost use Rattle.block_disk.specs.Images.{IsOnly, AtEachMoment};
ghost use Rattle.redo_log.specs.Log.{MayBeBegun};
ghost use Rattle.redo_log.specs.Plans.{begin_calls};
ghost use Rattle.redo_log.specs.Runs.{IsUntouched, HasRun, MetFault};

use crate::MakeWhy;
use crate::gate::CLOSED;
use block_disk::Disk;

/// Writes the closed gate of a log with no body.
pub(crate) fn lay_gate<D: Disk>(disk: &mut D) -> Result<(), MakeWhy>
    requires { D.content disk.old ≡ [] }
    ensures laid { OnOk result (D.content disk.new ≡ 0 ∷ []) }
    ensures durable { OnOk result (IsOnly (D.content disk.new) (D.images disk.new)) }
    ensures any_moment { IsOnly [] (D.images disk.old) → AtEachMoment D.moment D.images_since disk.old disk.new MayBeBegun }
    ensures run { OnOk result (HasRun D.Disk begin_calls disk.old disk.new) }
    ensures failed { IsErrOf result MakeWhy.Fault → MetFault D.Disk begin_calls disk.old disk.new }
    ensures refused { IsErrOf result MakeWhy.NoMemory → IsUntouched D.Disk disk.old disk.new }
{
    disk.room(1, 1)?;
    disk.write_at(0, &[CLOSED])?;
    Ok(disk.sync()?)
}
