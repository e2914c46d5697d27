//! When the table is trimmed, how many rows a trim takes at most, and how long rows are kept.
#![tactic(auto)]

mod policies;

pub use policies::Policy;
