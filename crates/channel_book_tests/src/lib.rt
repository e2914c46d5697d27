//! Tests of the channel book: what reading answers to each text, and what a book answers.
#![tactic(auto)]

#[cfg(test)]
mod answering_tests;
#[cfg(test)]
mod reading_tests;
