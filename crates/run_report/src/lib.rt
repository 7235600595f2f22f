//! What is told of a run, and what comes next: the lines of its commands, the pending calls, HOLD, the orders on disks and
//! the points of crash-test comments that have not struck.
//!
//! Nothing here knows a node or a message. What a change depends on beside this the caller looks up and hands in
//! (`specs/Facts.antt` says what it has to be), and each call then gives what the definitions of a run say. A call fails
//! where memory runs out, and for no other reason; then the lines of the commands before stay, and the rest is of no use.
#![tactic(auto)]

mod begin;
mod cut;
mod due;
mod ends;
mod run_report;
mod stops;
mod turn;

pub use begin::BeginFacts;
pub use cut::Cut;
pub use due::{Due, DueFacts};
pub use run_report::RunReport;
pub use stops::StopFacts;
pub use turn::TurnFacts;
