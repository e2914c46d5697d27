//! The nodes of a world over one table: the events of a history, stepped one after the other.
#![tactic(auto)]

mod conns;
mod draining;
mod jobs;
mod nodes;
mod outstanding;
mod parts;
mod saying;
mod stores;
mod turns;
mod worlds;

pub use saying::Said;
pub use worlds::World;
