//! Plays: worked scenarios, played by the definitions alone.
//!
//! A play is a lemma. It says that the run of a script, as run_rules defines it over the rules of node_rules, prints exactly
//! the lines that are due, and it is proved by computation. So a definition that says something else than it should is
//! found before any code is held to it. proofs/Script.antt has the words in which the plays are written; the other files
//! there are made from tests/plays/scenarios by tests/plays/make.py.
#![tactic(auto)]
