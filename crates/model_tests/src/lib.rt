//! Tests of `cable_model` and `cable_script`.
//!
//! They stand in a crate of their own, since a crate with tests is proved twice.
#![tactic(auto)]

#[cfg(test)]
mod cable_model_tests;
#[cfg(test)]
mod cable_script_tests;
