//! Laws of the records that bytes hold.
ghost use Rattle.record_log.specs.Held.{HoldOneList, LogsHold, BegunHoldNone};

use redo_codec::records_are_exact;

/// No bytes hold two lists of records.
#[tactic(auto, using(crate::proofs::Held::one_list))]
pub fn hold_one_list()
    ensures { HoldOneList }
{
    records_are_exact();
}

/// The log of records alone holds these records.
#[tactic(auto, using(crate::proofs::Held::log_holds_records))]
pub fn logs_hold()
    ensures { LogsHold }
{}

/// While a log is begun, what a crash leaves holds no record.
#[tactic(auto, using(crate::proofs::Held::begun_holds_none))]
pub fn begun_hold_none()
    ensures { BegunHoldNone }
{}
