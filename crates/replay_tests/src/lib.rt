//! Tests of a replay that no case of `tests/cases` can say: how the input is cut, and where a read or a write fails.
//!
//! They stand in a crate of their own, since a crate with tests is proved twice.
#![tactic(auto)]

#[cfg(test)]
mod endless;
#[cfg(test)]
mod replay_tests;
