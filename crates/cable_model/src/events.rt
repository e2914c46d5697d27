ghost use Rattle.std.specs.Prelude.{◌≡◌, IfOk};

use cable_base::{ConnNo, Copied, Millis, Name, NodeNo, OutOfMemory, Text};
use std::alloc::Global;

/// One atomic step of a session: of a client, a worker, a listener, a broadcaster, a trimmer or the clock.
#[derive(Debug, PartialEq, Eq, Drop)]
pub enum Event {
    /// A node starts, where the table's last row stands.
    Boot {
        node: NodeNo,
    },
    /// A client connects to a node with the token of its request.
    Open {
        node: NodeNo,
        conn: ConnNo,
        token: Text,
    },
    /// A client's text arrives.
    In {
        conn: ConnNo,
        text: Text,
    },
    /// A client has gone.
    Drop {
        conn: ConnNo,
    },
    /// A node is to restart: it closes its connections.
    Stop {
        node: NodeNo,
    },
    /// A worker takes the connection's next piece.
    Take {
        conn: ConnNo,
    },
    /// A worker commits the next broadcast of the job that is out.
    Put {
        conn: ConnNo,
        at: Millis,
    },
    /// A worker ends its job.
    Finish {
        conn: ConnNo,
    },
    /// The application broadcasts.
    Cast {
        at: Millis,
        channel: Name,
        payload: Text,
    },
    /// Rows older than the retention go, at most a batch of them.
    Trim {
        now: Millis,
        retention: Millis,
        batch: u64,
    },
    /// The node's listener begins a turn.
    Ask {
        node: NodeNo,
    },
    /// The turn's read of the table.
    Read {
        node: NodeNo,
    },
    /// The turn's rows are handed to the connections, and it ends.
    Deliver {
        node: NodeNo,
    },
    /// The node pings its connections.
    Beat {
        node: NodeNo,
        now: Millis,
    },
    /// The next broadcast, trim or read of the table is to fail.
    Fault,
}

impl Event {
    /// An equal event of its own.
    pub fn copy(&self, alloc: Global) -> Result<Event, OutOfMemory>
        ensures { IfOk result (λ e. e ≡ self.now) }
    {
        Ok(match self {
            Event::Boot { node } => Event::Boot { node: *node },
            Event::Open { node, conn, token } => Event::Open {
                node: *node,
                conn: *conn,
                token: token.copy(alloc)?,
            },
            Event::In { conn, text } => Event::In {
                conn: *conn,
                text: text.copy(alloc)?,
            },
            Event::Drop { conn } => Event::Drop { conn: *conn },
            Event::Stop { node } => Event::Stop { node: *node },
            Event::Take { conn } => Event::Take { conn: *conn },
            Event::Put { conn, at } => Event::Put {
                conn: *conn,
                at: *at,
            },
            Event::Finish { conn } => Event::Finish { conn: *conn },
            Event::Cast {
                at,
                channel,
                payload,
            } => Event::Cast {
                at: *at,
                channel: channel.copy(alloc)?,
                payload: payload.copy(alloc)?,
            },
            Event::Trim {
                now,
                retention,
                batch,
            } => Event::Trim {
                now: *now,
                retention: *retention,
                batch: *batch,
            },
            Event::Ask { node } => Event::Ask { node: *node },
            Event::Read { node } => Event::Read { node: *node },
            Event::Deliver { node } => Event::Deliver { node: *node },
            Event::Beat { node, now } => Event::Beat {
                node: *node,
                now: *now,
            },
            Event::Fault => Event::Fault,
        })
    }
}

impl Copied for Event {
    fn copied(&self, alloc: Global) -> Result<Event, OutOfMemory> {
        self.copy(alloc)
    }
}
