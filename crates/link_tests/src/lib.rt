//! Tests of `bell`, `cable_link`, `ws_gate` and `ws_handshake`.
//!
//! They stand in a crate of their own, since a crate with tests is proved twice.
#![tactic(auto)]

#[cfg(test)]
mod bell_tests;
#[cfg(test)]
mod broken_tests;
#[cfg(test)]
mod cable_link_tests;
#[cfg(test)]
mod door_tests;
#[cfg(test)]
mod loopback;
#[cfg(test)]
mod socket_tests;
#[cfg(test)]
mod ws_gate_tests;
#[cfg(test)]
mod ws_handshake_tests;
