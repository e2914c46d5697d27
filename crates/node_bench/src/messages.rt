ghost use Rattle.std.specs.Prelude.{IfOk};
ghost use Rattle.cable_base.specs.Squeeze.{IsSqueezedJson};

use crate::rooms::Room;
use crate::stops::Stop;
use cable_base::{MOST_PAYLOAD, Millis, Text, squeeze};
use cable_model::Origin;
use serde_json::Value;
use std::alloc::{AllocError, Global};
use table_core::{MemKeeper, Table};

/// An object of so many bytes, and of eight at least.
fn object(alloc: Global, bytes: u64) -> Result<String, AllocError> {
    let filling = "x".repeat(alloc, bytes.saturating_sub(8) as usize)?;
    let mut text = String::from_str(alloc, "{\"n\":\"")?;
    text.push_str(filling.as_str())?;
    text.push_str("\"}")?;
    Ok(text)
}

/// The message that each row has.
fn message(alloc: Global, bytes: u64) -> Result<Text, Stop>
    ensures { IfOk result IsSqueezedJson }
{
    let text = object(alloc, bytes)?;
    match Value::from_str(alloc, text.as_str()) {
        Ok(_) => Ok(squeeze(alloc, text.as_str())?),
        Err(_) => Err(Stop::Refused),
    }
}

/// Commits the rows of the room.
pub fn commit_rows(alloc: Global, table: &mut Table<MemKeeper>, room: Room) -> Result<(), Stop> {
    let message = message(alloc, room.bytes)?;
    if message.as_str().len() > MOST_PAYLOAD {
        return Err(Stop::Refused);
    }
    for _ in 0..room.rows {
        table.commit(Origin::Cast, "room_1", message.as_str(), Millis(0))?;
    }
    Ok(())
}
