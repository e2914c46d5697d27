//! The connections of a node, by their numbers, each with what is queued on it.
#![tactic(auto)]

mod laws;
mod queues;
mod seats;
mod slots;
mod turning;

pub use laws::{
    finishes_of_numbers_are_entries, numbers_are_the_journals, opens_are_entries,
    other_entries_leave_the_numbers, puts_on_numbers_are_entries, takes_of_numbers_are_entries,
    turns_of_numbers_are_entries,
};
pub use queues::Queued;
pub use seats::Seats;
pub use slots::{Connection, Errand, Slot};
pub use turning::{Delivery, Wanted};
