//! Replays a session script: reads it line by line, steps the events of each line in a world of nodes over one table, and writes what they say.
#![tactic(auto)]

mod draws;
mod made;
mod modes;
mod outputs;
mod printing;
mod replaying;
mod replays;
mod running;
mod stages;

pub use replays::replay;
