//! Laws alone.
ghost use Rattle.node_disk.specs.Laws.{TurnsStoreTheirRecords};

/// What a node stores after a turn is what it stored before with the turn's record, but for the Acks that were noted in the rows
/// of kept branches. So the records of a disk say what its node stores.
pub fn turns_store_their_records()
    ensures { TurnsStoreTheirRecords }
{}
