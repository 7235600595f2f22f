//! How a log is read from a disk.
ghost use Rattle.std.specs.Prelude.{◌≡◌, ◌<◌, ◌^◌, None, length, IfOk, IfErr, OnOk, IsErrOf};
ghost use Rattle.block_disk.specs.Images.{IsOnly};
ghost use Rattle.redo_log.specs.Calls.{LoadFails, length_calls};
ghost use Rattle.redo_log.specs.Cells.{bodies, IsLogTo};
ghost use Rattle.redo_log.specs.Plans.{load_calls};
ghost use Rattle.redo_log.specs.Runs.{HasRun, MetFault, IsOnlyRead};

use crate::gate::{Gate, first_gate};
use crate::plain::count;
use crate::{Bodies, LoadWhy};
use block_disk::Disk;
use std::alloc::Global;

/// The bodies of the log that a disk holds, and the place of the closed gate that ends it.
pub(crate) fn read_log<D: Disk>(alloc: Global, disk: &mut D) -> Result<(Bodies, u64), LoadWhy>
    requires { length (D.content disk.old) < 2 ^ 63 }
    ensures log { IfOk result (λ found. IsLogTo found.1 found.0 (D.content disk.old)) }
    ensures durable { OnOk result (IsOnly (D.content disk.new) (D.images disk.new)) }
    ensures read { IsOnlyRead D.Disk disk.old disk.new }
    ensures run { OnOk result (HasRun D.Disk (load_calls (D.content disk.old)) disk.old disk.new) }
    ensures failed { IfErr result (λ why. LoadFails D.Disk why disk.old disk.new) }
{
    let bytes = read_synced(alloc, disk)?;
    parse(alloc, &bytes)
}

/// All bytes of a disk, synced first.
fn read_synced<D: Disk>(alloc: Global, disk: &mut D) -> Result<Vec<u8>, LoadWhy>
    requires { length (D.content disk.old) < 2 ^ 63 }
    ensures bytes { IfOk result (λ bytes. bytes.items ≡ D.content disk.old) }
    ensures durable { OnOk result (IsOnly (D.content disk.new) (D.images disk.new)) }
    ensures read { IsOnlyRead D.Disk disk.old disk.new }
    ensures run { OnOk result (HasRun D.Disk (load_calls (D.content disk.old)) disk.old disk.new) }
    ensures failed { IsErrOf result LoadWhy.Fault → MetFault D.Disk (load_calls (D.content disk.old)) disk.old disk.new }
    ensures memory { IsErrOf result LoadWhy.NoMemory → HasRun D.Disk length_calls disk.old disk.new }
    ensures all_read { IsErrOf result LoadWhy.NotALog → ⊥ }
{
    disk.sync()?;
    let length = disk.len()?;
    let mut bytes = vec![in alloc; 0u8; length as usize]?;
    if length > 0 {
        disk.read(0, &mut bytes)?;
    }
    Ok(bytes)
}

/// The bodies of the log that these bytes hold, and the place of the closed gate that ends it.
fn parse(alloc: Global, bytes: &[u8]) -> Result<(Bodies, u64), LoadWhy>
    ensures log { IfOk result (λ found. IsLogTo found.1 found.0 bytes.now) }
    ensures not_a_log { IsErrOf result LoadWhy.NotALog → bodies bytes.now ≡ None }
    ensures none { bodies bytes.now ≡ None → IsErrOf result LoadWhy.NotALog }
    ensures no_fault { IsErrOf result LoadWhy.Fault → ⊥ }
{
    // That these bytes hold no log is seen before any memory is taken for its bodies.
    if count(bytes).is_none() {
        return Err(LoadWhy::NotALog);
    }
    let mut found = Bodies::new(alloc);
    let mut rest = bytes;
    'cells: loop {
        match first_gate(rest) {
            Gate::Open { body, behind } => {
                found.push(body.to_vec(alloc)?)?;
                rest = behind;
            }
            Gate::Closed => return Ok((found, (bytes.len() - rest.len()) as u64)),
            Gate::CutOff => return Err(LoadWhy::NotALog),
        }
    }
}
