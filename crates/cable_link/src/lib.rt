//! A client as its session has it: texts that come, and texts that are said. And the doors through which clients come in.
//!
//! `Link` is what a session needs of a client. `MemLink` is one in memory, for tests; `WsLink` is one over a WebSocket (RFC 6455) whose stream
//! doesn't block. `Door` is what gives a server its sockets.
#![tactic(auto)]

mod backlogs;
mod counted;
mod doors;
mod links;
mod listeners;
mod memory;
mod outcomes;
mod sizes;
mod sockets;

pub use counted::CountedStream;
pub use doors::{Door, Entered, FailingDoor};
pub use links::{Came, Link};
pub use listeners::ListenerDoor;
pub use memory::MemLink;
pub use sizes::{MESSAGE_LIMIT, OUTPUT_LIMIT, READ_SIZE, socket_config};
pub use sockets::{Goodbye, WsLink};
