//! The streams of one subscription: under which number each was wanted, and from which row on it is held.
#![tactic(auto)]

mod entries;
mod sets;

pub use entries::StreamEntry;
pub use sets::StreamSet;
