//! The log of a node: an entry for each call that changed the node, in order.
#![tactic(auto)]

mod histories;
mod logging;

pub use histories::History;
pub use logging::NodeLog;
