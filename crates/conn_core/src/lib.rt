//! One connection in sequence: what a piece of its work needs, what the rules make of it, and the subscriptions that it leaves.
#![tactic(auto)]

mod casting;
mod changing;
mod connections;
mod finding;
mod keeping;
mod laws;
mod names;
mod planning;
mod saying;
mod streaming;
mod subscriptions;
mod tasking;
mod walking;

pub use connections::Conn;
pub use finding::{sub_named, sub_numbered};
pub use laws::{changes_are_steps, places_are_marks, plans_are_the_rules, plans_can_be_applied};
pub use planning::plan;
pub use subscriptions::Sub;
pub use walking::among;
