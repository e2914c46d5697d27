//! Tests of `ws_session`.
//!
//! They stand in a crate of their own, since a crate with tests is proved twice.
#![tactic(auto)]

#[cfg(test)]
mod clients;
#[cfg(test)]
mod node_tests;
#[cfg(test)]
mod nodes;
#[cfg(test)]
mod others_tests;
#[cfg(test)]
mod told_desk;
#[cfg(test)]
mod told_tests;
