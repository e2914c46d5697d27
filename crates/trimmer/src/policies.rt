ghost use Rattle.std.specs.Prelude.{◌≡◌, ◌↔◌, IsTrue};
ghost use Rattle.trimmer.specs.Policies.{IsDue};

use cable_base::{Millis, RowId};

/// How a table is trimmed.
#[derive(Clone, Copy, Debug, PartialEq, Eq)]
pub struct Policy {
    /// A trim follows each row whose id this number divides. 0 stands for no trim.
    pub every: u64,
    /// A trim takes at most so many rows.
    pub batch: u64,
    /// Rows that are older than this may go, in milliseconds.
    pub retention: Millis,
}

impl Policy {
    /// The usual policy, after solid_cable: a trim of at most 100 rows, each older than a day. One follows each 50th row.
    pub fn usual() -> Policy
        ensures { result ≡ record { every = 50; batch = 100; retention = record { 0 = 86400000 } } }
    {
        Policy {
            every: 50,
            batch: 100,
            retention: Millis(86_400_000),
        }
    }

    /// Whether a trim follows the row of this id. It takes no memory.
    pub fn due(&self, row: RowId) -> bool
        ensures { IsTrue result ↔ IsDue self.now.every row.0 }
    {
        self.every != 0 && row.0.is_multiple_of(self.every)
    }
}
