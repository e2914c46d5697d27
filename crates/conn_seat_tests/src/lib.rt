//! Tests of the seat of a connection, and of what is queued on it.
//!
//! They stand in a crate of their own, since a crate with tests is proved twice.
#![tactic(auto)]

#[cfg(test)]
mod conn_seat_tests;
#[cfg(test)]
mod outbox_tests;
