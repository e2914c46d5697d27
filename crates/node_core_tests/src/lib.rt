//! Tests of a node.
//!
//! They stand in a crate of their own, since a crate with tests is proved twice.
#![tactic(auto)]

#[cfg(test)]
mod node_core_acts;
#[cfg(test)]
mod node_core_tests;
#[cfg(test)]
mod node_core_turn_tests;
