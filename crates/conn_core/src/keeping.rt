ghost use Rattle.std.specs.Prelude.{◌≡◌, IfOk};
ghost use Rattle.conn_core.specs.Connections.{HasSetFor};

use cable_base::OutOfMemory;
use cable_model::Change;
use std::alloc::Global;
use stream_set::StreamSet;

/// A change that room was made for, and an empty set for the streams of the subscription that it makes.
#[derive(Debug, Drop)]
pub struct Kept {
    pub change: Change,
    pub room: StreamSet,
}

/// A copy of the change, with room for the streams of the subscription that it makes.
pub fn keep(alloc: Global, change: &Change) -> Result<Kept, OutOfMemory>
    ensures change { IfOk result (λ k. k.change ≡ change.now) }
    ensures room { IfOk result (λ k. HasSetFor change.now k.room) }
{
    let mut room = StreamSet::empty(alloc);
    if let Change::Add { streams, .. } = change {
        room.reserve(streams.as_slice().len() as u64)?;
    }
    Ok(Kept {
        change: change.copy(alloc)?,
        room,
    })
}
