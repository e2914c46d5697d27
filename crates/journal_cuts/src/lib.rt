//! What a journal says without the entries of connections that are forgotten, and one that begins again.
//!
//! A law is a function that computes nothing, and its contract is the law.
#![tactic(auto)]

mod beginnings;
mod cuts;

pub use beginnings::{
    journals_go_on_from_a_new_beginning, journals_that_begin_again_say_what_is_left,
};
pub use cuts::{
    cut_journals_are_legal, cut_journals_say_the_same, cuts_go_on,
    nothing_is_said_of_a_cut_connection,
};
