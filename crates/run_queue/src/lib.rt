//! What waits on a connection, and which connections have something to work: a connection's inbox of pieces, and the list of
//! the numbers that are ready.
#![tactic(auto)]

mod inboxes;
mod ready_lists;

pub use inboxes::{Inbox, Taken, Unpushed};
pub use ready_lists::Ready;
