//! Draws the run of a script, from the bytes of the script to the bytes of the picture. The run is that of
//! `script_run::run_source`; this crate has no rules of its own. `specs/Drawing.antt` says what the picture is,
//! `specs/Words.antt` what the words of the command line ask for, and `specs/Ending.antt` how a call ends.
#![tactic(auto)]

mod chart;

pub use chart::draw_script;
pub use script_run::Status;
