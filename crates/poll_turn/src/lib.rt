//! A listener's turns. A node asks the table for the rows above the last id that it looked at, whose names it holds, and moves on to
//! where the read ended. One turn is out at a time, and each is spent: it can't be forgotten on the way.
#![tactic(auto)]

mod cursors;
mod turns;

pub use cable_base::channel_hash;
pub use cursors::Cursor;
pub use turns::{Caught, Turn};
