//! One connection on its node: its subscriptions, the pieces that wait on it and the one that is out as a job, as the node's journal has
//! them; and what is queued on it until its session takes it out.
#![tactic(auto)]

mod jobs;
mod laws;
mod naming;
mod outbox;
mod outs;
mod seats;
mod striking;

pub use laws::{
    answers_are_the_journals, finishes_are_entries, opened_connections_sit, other_entries_leave_it,
    pieces_go_on_being_worked, places_are_the_turns, plans_are_the_journals, plans_can_be_finished,
    puts_are_entries, room_plays_no_part, rows_go_to_held_streams, takes_are_entries,
    turns_are_entries,
};
pub use outbox::Outbox;
pub use outs::Out;
pub use seats::Seat;
