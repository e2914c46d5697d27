//! Tests of the table, its turns and the trimmer's policy.
//!
//! They stand in a crate of their own, since a crate with tests is proved twice.
#![tactic(auto)]

#[cfg(test)]
mod poll_turn_tests;
#[cfg(test)]
mod table_core_tests;
#[cfg(test)]
mod trimmer_tests;
