//! A wait that ends early where there is work.
#![tactic(auto)]

mod bells;
mod laws;
mod rings;

pub use bells::Bell;
pub use laws::rings_are_not_lost;
