//! What the tests of several crates begin with: a book and its texts, names, rows, pieces and plans. Each is proved once, here.
#![tactic(auto)]

mod books;
mod pieces;
mod rows;
mod sent;

pub use books::{ANN, CLUB, CONFIRMED, IDENTIFIER, SUBSCRIBE};
pub use pieces::{quiet_plan, subscribe};
pub use rows::{names, payload, row};
pub use sent::{CHAT, Sent, faulty, piece};
