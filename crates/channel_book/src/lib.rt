//! What an application answers to its clients: the callbacks, and the channel book that declares them.
#![tactic(auto)]

mod answering;
mod answers;
mod asking;
mod books;
mod callbacks;
mod checks;
mod declarations;
mod faults;
mod jsons;
mod laws;
mod names;
mod parameters;
mod parts;
mod shapes;
mod templates;

pub use answers::{Answer, CallFault, Cast};
pub use books::Book;
pub use callbacks::Callbacks;
pub use declarations::{Action, CastRule, Channel, Rules};
pub use faults::BookFault;
pub use laws::{plain_texts_stay, required_names_are_plain, templates_are_texts_with_names};
pub use templates::Template;
