//! What the definitions of a session promise: laws of every history and of every legal journal. A law is a function that computes nothing, and its contract is the law.
#![tactic(auto)]

mod commands;
mod histories;
mod holds;
mod said;
mod streams;

pub use commands::commands_have_their_first_fault;
pub use histories::{
    books_always_answer, confirmations_are_finished_behind_their_deliver,
    each_event_keeps_the_promises, finished_rows_are_the_window, inbox_is_kept_call_by_call,
    legal_journals_are_worked, legal_trims_take_only_old_rows, no_row_is_finished_after_the_end,
    pieces_are_worked_in_sequence, restrictions_are_legal, trims_take_only_old_rows,
    windows_of_histories, windows_of_journals,
};
pub use holds::holds_are_placed_by_turns;
pub use said::{
    confirmation_texts_come_of_confirmations, finished_rows_are_said, histories_are_worked,
    rows_follow_their_finished_confirmation,
};
pub use streams::streams_and_identifiers_differ;
