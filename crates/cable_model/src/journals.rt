ghost use Rattle.std.specs.Prelude.{◌≡◌, IfOk};

use crate::plans::Plan;
use cable_base::{ConnNo, Copied, Listed, Millis, Name, NodeNo, OutOfMemory, Row, RowId, Text};
use std::alloc::Global;

/// Who commits a row: the application, or a callback of a connection.
#[derive(Clone, Copy, Debug, PartialEq, Eq)]
pub enum Origin {
    Cast,
    Conn(ConnNo),
}

/// What a turn of a listener found in the table.
#[derive(Debug, PartialEq, Eq, Drop)]
pub struct ReadNote {
    /// The read failed, and the turn is missed. Then `upto` and `last` are `lower`, and there are no rows.
    pub failed: bool,
    /// The turn looks at the rows above this id ..
    pub lower: RowId,
    /// .. up to this one.
    pub upto: RowId,
    /// The table's last id at the read.
    pub last: RowId,
    /// The rows found, by rising id.
    pub rows: Listed<Row>,
}

impl ReadNote {
    /// An equal note of its own.
    pub fn copy(&self, alloc: Global) -> Result<ReadNote, OutOfMemory>
        ensures { IfOk result (λ n. n ≡ self.now) }
    {
        Ok(ReadNote {
            failed: self.failed,
            lower: self.lower,
            upto: self.upto,
            last: self.last,
            rows: self.rows.copy(alloc)?,
        })
    }
}

impl Copied for ReadNote {
    fn copied(&self, alloc: Global) -> Result<ReadNote, OutOfMemory> {
        self.copy(alloc)
    }
}

/// An entry of a node's log: a call that changed the node.
#[derive(Debug, PartialEq, Eq, Drop)]
pub enum Entry {
    Boot {
        last: RowId,
    },
    Open {
        conn: ConnNo,
        token: Text,
    },
    In {
        conn: ConnNo,
        text: Text,
    },
    Drop {
        conn: ConnNo,
    },
    Stop,
    Take {
        conn: ConnNo,
    },
    /// The ids of the job's commits in order, `None` for one that failed.
    Finish {
        conn: ConnNo,
        puts: Listed<Option<RowId>>,
    },
    /// Turns are numbered from 1.
    Ask {
        turn: u64,
    },
    Deliver {
        turn: u64,
        note: ReadNote,
    },
    Beat {
        now: Millis,
    },
}

impl Entry {
    /// An equal entry of its own.
    pub fn copy(&self, alloc: Global) -> Result<Entry, OutOfMemory>
        ensures { IfOk result (λ e. e ≡ self.now) }
    {
        Ok(match self {
            Entry::Boot { last } => Entry::Boot { last: *last },
            Entry::Open { conn, token } => Entry::Open {
                conn: *conn,
                token: token.copy(alloc)?,
            },
            Entry::In { conn, text } => Entry::In {
                conn: *conn,
                text: text.copy(alloc)?,
            },
            Entry::Drop { conn } => Entry::Drop { conn: *conn },
            Entry::Stop => Entry::Stop,
            Entry::Take { conn } => Entry::Take { conn: *conn },
            Entry::Finish { conn, puts } => Entry::Finish {
                conn: *conn,
                puts: puts.copy(alloc)?,
            },
            Entry::Ask { turn } => Entry::Ask { turn: *turn },
            Entry::Deliver { turn, note } => Entry::Deliver {
                turn: *turn,
                note: note.copy(alloc)?,
            },
            Entry::Beat { now } => Entry::Beat { now: *now },
        })
    }
}

impl Copied for Entry {
    fn copied(&self, alloc: Global) -> Result<Entry, OutOfMemory> {
        self.copy(alloc)
    }
}

/// What a node keeps beside an entry of its log.
#[derive(Debug, PartialEq, Eq, Drop)]
pub enum Beside {
    Nothing,
    /// Beside an Open: the user of its token, or none.
    User { user: Option<Text> },
    /// Beside a Finish: the plan of its piece.
    Worked { plan: Plan },
}

impl Beside {
    /// An equal one of its own.
    pub fn copy(&self, alloc: Global) -> Result<Beside, OutOfMemory>
        ensures { IfOk result (λ b. b ≡ self.now) }
    {
        Ok(match self {
            Beside::Nothing => Beside::Nothing,
            Beside::User { user } => Beside::User {
                user: user.copied(alloc)?,
            },
            Beside::Worked { plan } => Beside::Worked {
                plan: plan.copy(alloc)?,
            },
        })
    }
}

impl Copied for Beside {
    fn copied(&self, alloc: Global) -> Result<Beside, OutOfMemory> {
        self.copy(alloc)
    }
}

/// An entry of the table's log. A `None` id or count, and a failed note, mean that the keeper refused.
#[derive(Debug, PartialEq, Eq, Drop)]
pub enum TableEntry {
    Boot {
        node: NodeNo,
        last: RowId,
    },
    Commit {
        from: Origin,
        id: Option<RowId>,
        channel: Name,
        payload: Text,
        at: Millis,
    },
    Trim {
        now: Millis,
        retention: Millis,
        batch: u64,
        taken: Option<u64>,
    },
    Read {
        node: NodeNo,
        turn: u64,
        note: ReadNote,
    },
}

impl TableEntry {
    /// An equal entry of its own.
    pub fn copy(&self, alloc: Global) -> Result<TableEntry, OutOfMemory>
        ensures { IfOk result (λ e. e ≡ self.now) }
    {
        Ok(match self {
            TableEntry::Boot { node, last } => TableEntry::Boot {
                node: *node,
                last: *last,
            },
            TableEntry::Commit {
                from,
                id,
                channel,
                payload,
                at,
            } => TableEntry::Commit {
                from: *from,
                id: *id,
                channel: channel.copy(alloc)?,
                payload: payload.copy(alloc)?,
                at: *at,
            },
            TableEntry::Trim {
                now,
                retention,
                batch,
                taken,
            } => TableEntry::Trim {
                now: *now,
                retention: *retention,
                batch: *batch,
                taken: *taken,
            },
            TableEntry::Read { node, turn, note } => TableEntry::Read {
                node: *node,
                turn: *turn,
                note: note.copy(alloc)?,
            },
        })
    }
}

impl Copied for TableEntry {
    fn copied(&self, alloc: Global) -> Result<TableEntry, OutOfMemory> {
        self.copy(alloc)
    }
}
