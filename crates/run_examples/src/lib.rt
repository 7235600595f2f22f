//! The top call by examples, as tests: sources and sinks that fail, the edge of what is read, and worked scripts over
//! sources and sinks in memory. More scripts stand below tests/cases, for the built program.
#![tactic(auto)]

#[cfg(test)]
mod across;
#[cfg(test)]
mod ends;
#[cfg(test)]
mod large;
#[cfg(test)]
mod worked;
