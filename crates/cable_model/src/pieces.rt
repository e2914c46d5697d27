ghost use Rattle.std.specs.Prelude.{◌≡◌, IfOk};

use cable_base::{Copied, OutOfMemory, Row, SubNo, WantNo};
use cable_json::{Command, CommandFault};
use std::alloc::Global;

/// A piece of a connection's work. Pieces wait in its inbox and are worked one at a time, in their order.
#[derive(Debug, PartialEq, Eq, Drop)]
pub enum Piece {
    /// A client's text, as it was read. It never holds want of memory.
    Cmd { read: Result<Command, CommandFault> },
    /// A row of a stream that the subscription holds.
    Row { sub: SubNo, want: WantNo, row: Row },
    /// The confirmation of a subscription has become due.
    Confirm { sub: SubNo },
    /// The application closes the connections of the user.
    Remote { reconnect: bool },
    /// The client has gone.
    Gone,
    /// The node restarts.
    Restart,
}

impl Piece {
    /// An equal piece of its own.
    pub fn copy(&self, alloc: Global) -> Result<Piece, OutOfMemory>
        ensures { IfOk result (λ p. p ≡ self.now) }
    {
        Ok(match self {
            Piece::Cmd { read: Ok(command) } => Piece::Cmd {
                read: Ok(command.copy(alloc)?),
            },
            Piece::Cmd { read: Err(fault) } => Piece::Cmd { read: Err(*fault) },
            Piece::Row { sub, want, row } => Piece::Row {
                sub: *sub,
                want: *want,
                row: row.copy(alloc)?,
            },
            Piece::Confirm { sub } => Piece::Confirm { sub: *sub },
            Piece::Remote { reconnect } => Piece::Remote {
                reconnect: *reconnect,
            },
            Piece::Gone => Piece::Gone,
            Piece::Restart => Piece::Restart,
        })
    }
}

impl Copied for Piece {
    fn copied(&self, alloc: Global) -> Result<Piece, OutOfMemory> {
        self.copy(alloc)
    }
}
