ghost use Rattle.std.specs.Prelude.{◌≡◌};

use cable_base::{Listed, OutOfMemory, Text};
use cable_json::Command;
use cable_model::{Change, Piece, Plan};
use std::alloc::Global;

/// A client's text that subscribes with this identifier.
pub fn subscribe(alloc: Global, identifier: &str) -> Result<Piece, OutOfMemory> {
    Ok(Piece::Cmd {
        read: Ok(Command::Subscribe {
            identifier: Text::new(alloc, identifier)?,
        }),
    })
}

/// The plan that makes this change, and says nothing.
pub fn quiet_plan(alloc: Global, change: Change) -> Plan
    ensures { result.change ≡ change }
{
    Plan {
        texts: Listed::empty(alloc),
        notes: Listed::empty(alloc),
        casts: Listed::empty(alloc),
        change,
    }
}
