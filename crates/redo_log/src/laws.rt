//! Laws of logs.
ghost use Rattle.redo_log.specs.Cells.{LogsAreRead, FitsOneMore};

/// The log of bodies that fit holds these bodies.
#[tactic(auto, using(crate::proofs::Logs::log_is_read))]
pub fn logs_are_read()
    ensures { LogsAreRead }
{}

/// One body more that fits leaves all fitting.
#[tactic(auto, using(crate::proofs::Logs::fits_one_more))]
pub fn fits_one_more()
    ensures { FitsOneMore }
{}
