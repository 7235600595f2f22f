//! Disks, logs, redo records, logs of them and messages by examples, as tests: what no clause says, and that calls succeed.
//!
//! One module a crate. What is expected was worked out by hand from the rules, never taken from the program.
//! A call that many tests make stands in a helper without a contract: what nothing rests on need not be carried along in
//! their proofs.
#![tactic(auto)]

#[cfg(test)]
mod disks;
#[cfg(test)]
mod durable;
#[cfg(test)]
mod fields;
#[cfg(test)]
mod images;
#[cfg(test)]
mod logs;
#[cfg(test)]
mod messages;
#[cfg(test)]
mod record_logs;
#[cfg(test)]
mod records;
#[cfg(test)]
mod restarts;
#[cfg(test)]
mod struck_logs;
#[cfg(test)]
mod two_logs;
