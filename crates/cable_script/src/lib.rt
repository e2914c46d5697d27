//! The lines of a session script, both ways: which verb a line stands for, which events a verb stands for, and which line an event has. And
//! the lines of the transcript.
#![tactic(auto)]

mod connections;
mod expanding;
mod faults;
mod laws;
mod nodes;
mod numbers;
mod printing;
mod reading;
mod tables;
mod verb_names;
mod words;

pub use expanding::expand;
pub use faults::LineFault;
pub use laws::{
    first_breaks_are_one, lines_are_read, lines_have_their_first_fault, printed_lines_are_read,
    printed_scripts_say_the_same,
};
pub use numbers::number_in;
pub use printing::{print_event, print_line};
pub use reading::{read_line, utf8_text};
pub use words::cut_word;
