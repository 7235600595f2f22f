//! The law of the active log: the bytes of two disks name the one that a load takes.
ghost use Rattle.std.specs.Prelude.{◌≡◌, List, ℕ, None, Some};
ghost use Rattle.redo_log.specs.Cells.{bodies};
ghost use Rattle.redo_log.specs.Log.{disk_of};
ghost use Rattle.redo_log.specs.Runs.{IsOnlyRead};
ghost use Rattle.redo_log.specs.declared.err.LoadWhy.TheVariants as of_load;
ghost use Rattle.checkpoint.specs.Active.{side_of, side_of_lists};
ghost use Rattle.checkpoint.specs.Pair.{LoadsPair, LoadPairFails};
ghost use Rattle.checkpoint.specs.declared.two_logs.TwoLogs.{TwoLogs};

use block_disk::Disk;

/// What `active_of` says of the bytes of two disks is what a load of them finds: it names the log that is active after the
/// load, and none where the load fails because there is no log.
pub fn the_active_log_is_loaded<D: Disk>()
    ensures taken { (first second : D) (logs : TwoLogs D) (list : List (List ℕ)) → LoadsPair D.Disk first second logs list
        → IsOnlyRead D.Disk first (disk_of logs.first) → IsOnlyRead D.Disk second (disk_of logs.second)
        → side_of_lists (bodies (D.content first)) (bodies (D.content second)) ≡ Some (side_of logs.second_is_active) }
    ensures refused { (first second first_now second_now : D) → LoadPairFails D.Disk of_load.NotALog first second first_now second_now
        → side_of_lists (bodies (D.content first)) (bodies (D.content second)) ≡ None }
{}
