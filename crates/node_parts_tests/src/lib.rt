//! Tests of the parts of a node: its log, seats with what is queued on them, wants, holds and the names that are held.
//!
//! They stand in a crate of their own, since a crate with tests is proved twice.
#![tactic(auto)]

#[cfg(test)]
mod hold_fixtures;
#[cfg(test)]
mod node_log_tests;
#[cfg(test)]
mod node_seats_queue_tests;
#[cfg(test)]
mod node_seats_tests;
#[cfg(test)]
mod node_turns_bringing_tests;
#[cfg(test)]
mod node_turns_placing_tests;
#[cfg(test)]
mod node_turns_releasing_tests;
#[cfg(test)]
mod node_turns_wants_tests;
#[cfg(test)]
mod seat_fixtures;
#[cfg(test)]
mod subscriber_map_tests;
