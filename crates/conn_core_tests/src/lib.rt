//! Tests of the crates below the seat of a connection: its streams, what waits on it, its subscriptions.
//!
//! They stand in a crate of their own, since a crate with tests is proved twice.
#![tactic(auto)]

#[cfg(test)]
mod conn_core_tests;
#[cfg(test)]
mod run_queue_tests;
#[cfg(test)]
mod stream_set_tests;
