//! Who holds a stream: from each name to its holds. A row of that name goes to each of them whose mark is below the row's id.
#![tactic(auto)]

mod holding;
mod mapping;

pub use holding::Hold;
pub use mapping::SubscriberMap;
