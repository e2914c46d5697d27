ghost use Rattle.std.specs.Prelude.{◌≡◌, IfOk};

use crate::notes::Note;
use cable_base::{ConnNo, Copied, OutOfMemory, RowId, Text};
use std::alloc::Global;

/// A line of the transcript.
#[derive(Debug, PartialEq, Eq, Drop)]
pub enum Line {
    /// A text was queued for the client.
    Text { conn: ConnNo, text: Text },
    /// Something was noted, of a connection or of none.
    Note { conn: Option<ConnNo>, note: Note },
    /// A row was committed.
    Row { id: RowId },
    /// So many rows were trimmed.
    Trimmed { count: u64 },
}

impl Line {
    /// An equal line of its own.
    pub fn copy(&self, alloc: Global) -> Result<Line, OutOfMemory>
        ensures { IfOk result (λ l. l ≡ self.now) }
    {
        Ok(match self {
            Line::Text { conn, text } => Line::Text {
                conn: *conn,
                text: text.copy(alloc)?,
            },
            Line::Note { conn, note } => Line::Note {
                conn: *conn,
                note: *note,
            },
            Line::Row { id } => Line::Row { id: *id },
            Line::Trimmed { count } => Line::Trimmed { count: *count },
        })
    }
}

impl Copied for Line {
    fn copied(&self, alloc: Global) -> Result<Line, OutOfMemory> {
        self.copy(alloc)
    }
}

/// What the lines of a transcript come to.
#[derive(Clone, Copy, Debug, PartialEq, Eq)]
pub struct Totals {
    /// How many rows were committed.
    pub rows: u64,
    /// How many rows were trimmed.
    pub trimmed: u64,
    /// How many texts were queued.
    pub texts: u64,
    /// How many notes were made.
    pub notes: u64,
}
