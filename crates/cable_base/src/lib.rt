//! What every crate of the server stands on: texts and names with their hash, the numbers of things, rows, sources and
//! sinks of bytes, the clock, counts of steps, and JSON without its white space.
#![tactic(auto)]

mod adapters;
mod clocks;
mod failing;
mod faults;
mod hashing;
mod limits;
mod lists;
mod memory;
mod numbers;
mod rows;
mod squeezing;
mod steps;
mod streams;
mod texts;

pub use adapters::{StdSink, StdSource};
pub use clocks::{Clock, SystemClock};
pub use failing::FailingCalls;
pub use faults::{Failed, OutOfMemory, Trouble};
pub use hashing::channel_hash;
pub use limits::{
    LAST_CONN, LAST_MOMENT, LAST_NODE, MOMENT_LIMIT, MOST_BATCH, MOST_CONNECTIONS, MOST_ID,
    MOST_LINE, MOST_NAME, MOST_PAYLOAD, MOST_PUTS, MOST_SCRIPT, MOST_STREAMS, MOST_SUBSCRIPTIONS,
    MOST_TEXT, MOST_USER, MOST_WAITING, PAGE_ROWS,
};
pub use lists::{Copied, Listed};
pub use memory::{MemSink, MemSource};
pub use numbers::{ConnNo, Millis, NodeNo, RowId, SubNo, WantNo};
pub use rows::Row;
pub use squeezing::{Quoting, squeeze, squeezing_keeps_the_value};
pub use steps::Steps;
pub use streams::{Sink, Source};
pub use texts::{Name, Text};
