//! The work of one worker and of one listener, over any desk and any table: what each does between the calls, and in which order it
//! makes them.
#![tactic(auto)]

mod gates;
mod listening;
mod working;

pub use gates::{FreeGate, Gate};
pub use listening::listen_once;
pub use working::work_once;

#[cfg(test)]
mod tests;
