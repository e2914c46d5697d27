//! What a channel book is, in the words of its format, and the laws that exactly these are read. A law is a function that computes nothing, and its contract is the law.
#![tactic(auto)]

mod laws;

pub use laws::{books_are_read, faults_name_the_first_place, shapes_are_books};
