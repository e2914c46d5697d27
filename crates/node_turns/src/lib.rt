//! What a turn of a node takes, places and brings: the wants that it takes, the holds that they become, and the rows for who holds them.
#![tactic(auto)]

mod bringing;
mod bringing_laws;
mod confirming;
mod holding_laws;
mod placing;
mod placing_laws;
mod releasing;
mod wanting_laws;
mod wants;

pub use bringing::add_rows;
pub use bringing_laws::{held_names_are_the_journals, rows_go_to_their_holders};
pub use confirming::add_confirms;
pub use holding_laws::{holds_are_the_journals, holds_end_with_their_wants};
pub use placing::{Placing, hold_all, placings};
pub use placing_laws::turns_place_their_wants;
pub use releasing::release;
pub use wanting_laws::{
    confirmations_come_with_their_turn, marks_are_placed_by_the_turn, wants_are_the_journals,
    wants_of_others_stay,
};
pub use wants::Wants;
