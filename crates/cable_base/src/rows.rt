ghost use Rattle.std.specs.Prelude.{◌≡◌, IfOk};

use crate::faults::OutOfMemory;
use crate::lists::Copied;
use crate::numbers::{Millis, RowId};
use crate::texts::{Name, Text};
use std::alloc::Global;

/// A row of the table: what was broadcast on a stream, and when.
#[derive(Debug, PartialEq, Eq, Drop)]
pub struct Row {
    /// Its id. The ids of a table rise with each row.
    pub id: RowId,
    /// The stream that it was broadcast on.
    pub channel: Name,
    /// The message, as squeezed JSON.
    pub payload: Text,
    /// The moment at which it was committed.
    pub created_at: Millis,
}

impl Row {
    /// An equal row. It shares the characters of the name and of the message, and takes no memory for them.
    pub fn copy(&self, alloc: Global) -> Result<Row, OutOfMemory>
        ensures { IfOk result (λ r. r ≡ self.now) }
    {
        Ok(Row {
            id: self.id,
            channel: self.channel.copy(alloc)?,
            payload: self.payload.copy(alloc)?,
            created_at: self.created_at,
        })
    }
}

impl Copied for Row {
    fn copied(&self, alloc: Global) -> Result<Row, OutOfMemory> {
        self.copy(alloc)
    }
}
