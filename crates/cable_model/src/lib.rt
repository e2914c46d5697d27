//! What a session is: its events, pieces, plans, lines and logs as plain types, and in the specifications what each event does.
#![tactic(auto)]

mod events;
mod journals;
mod lines;
mod notes;
mod pieces;
mod plans;
mod statuses;
mod verb_names;
mod verbs;

pub use events::Event;
pub use journals::{Beside, Entry, Origin, ReadNote, TableEntry};
pub use lines::{Line, Totals};
pub use notes::Note;
pub use pieces::Piece;
pub use plans::{Change, Closing, Plan, Task};
pub use statuses::{BreakReason, Status};
pub use verb_names::VerbName;
pub use verbs::Verb;
