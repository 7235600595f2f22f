//! A node over a disk in memory by examples, as tests: turn by turn, its clients and its neighbours played by the test.
//!
//! What is expected was worked out by hand from the rules, never taken from the program.
#![tactic(auto)]

#[cfg(test)]
mod branches;
#[cfg(test)]
mod cuts;
#[cfg(test)]
mod doubts;
#[cfg(test)]
mod forced;
#[cfg(test)]
mod hq;
#[cfg(test)]
mod letters;
#[cfg(test)]
mod lives;
#[cfg(test)]
mod orders;
#[cfg(test)]
mod refused;
#[cfg(test)]
mod sales;
#[cfg(test)]
mod struck;
#[cfg(test)]
mod warehouse;
