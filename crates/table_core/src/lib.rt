//! The one table that all nodes share: ids, commits, reads and trims, over any keeper of rows.
#![tactic(auto)]

mod faults;
mod keepers;
mod laws;
mod memory;
mod stores;
mod tables;

pub use faults::{KeeperFault, StoreFault};
pub use keepers::Keeper;
pub use laws::{
    commits_follow_the_journal, empty_tables_show_nothing, reads_follow_the_journal,
    refusals_follow_the_journal, trims_follow_the_journal,
};
pub use memory::MemKeeper;
pub use stores::{Reads, Store};
pub use tables::{NotStarted, Table};
