//! A node: its connections, what is queued on them, who holds what, and its journal. Each call that changes it is one entry of the journal.
#![tactic(auto)]

mod arriving;
mod beats;
mod desks;
mod finishing;
mod forgetting;
mod jobs;
mod journals;
mod nodes;
mod opening;
mod resetting;
mod serving;
mod turns;
mod working;

pub use arriving::ArriveFault;
pub use desks::{Desk, Ears};
pub use jobs::Job;
pub use nodes::Node;
pub use opening::OpenFault;
pub use working::Work;
