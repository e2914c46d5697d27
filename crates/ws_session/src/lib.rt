//! The session of a client: one pump between its link and the desk of its connection, over any link and any desk.
#![tactic(auto)]

mod hearing;
mod laws;
mod outcomes;
mod pumping;
mod saying;

pub use laws::{texts_are_passed_on_in_order, texts_of_a_node_are_said};
pub use outcomes::{PumpFault, Pumped};
pub use pumping::pump_once;
