//! Tests of `cable_base` and `cable_json`.
//!
//! They stand in a crate of their own, since a crate with tests is proved twice.
#![tactic(auto)]

#[cfg(test)]
mod cable_base_tests;
#[cfg(test)]
mod cable_json_tests;
