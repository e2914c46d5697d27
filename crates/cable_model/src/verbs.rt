ghost use Rattle.std.specs.Prelude.{◌≡◌, IfOk};

use crate::events::Event;
use cable_base::{ConnNo, Copied, Millis, NodeNo, OutOfMemory};
use std::alloc::Global;

/// What a line of a session script stands for: one event, or several.
#[derive(Debug, PartialEq, Eq, Drop)]
pub enum Verb {
    One { event: Event },
    /// A worker takes the connection's next piece, commits so many of its broadcasts, and ends its job.
    Work { conn: ConnNo, at: Millis, puts: u64 },
    /// A whole turn of the node's listener: ask, read, deliver.
    Poll { node: NodeNo },
}

impl Verb {
    /// An equal verb of its own.
    pub fn copy(&self, alloc: Global) -> Result<Verb, OutOfMemory>
        ensures { IfOk result (λ v. v ≡ self.now) }
    {
        Ok(match self {
            Verb::One { event } => Verb::One {
                event: event.copy(alloc)?,
            },
            Verb::Work { conn, at, puts } => Verb::Work {
                conn: *conn,
                at: *at,
                puts: *puts,
            },
            Verb::Poll { node } => Verb::Poll { node: *node },
        })
    }
}

impl Copied for Verb {
    fn copied(&self, alloc: Global) -> Result<Verb, OutOfMemory> {
        self.copy(alloc)
    }
}
