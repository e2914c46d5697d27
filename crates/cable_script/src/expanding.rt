ghost use Rattle.std.specs.Prelude.{◌≡◌, ◌∷◌, [], ◌++◌, IfOk, replicate};
ghost use Rattle.cable_model.specs.Script.{expand};
ghost use Rattle.cable_model.specs.declared.events.Event.TheVariants as event;

use cable_base::{ConnNo, Millis, OutOfMemory};
use cable_model::{Event, Verb};
use std::alloc::Global;

fn worked(alloc: Global, conn: ConnNo, at: Millis, puts: u64) -> Result<Vec<Event>, OutOfMemory>
    ensures { IfOk result (λ v. v.items ≡ (event.Take conn ∷ replicate puts (event.Put conn at)) ++ event.Finish conn ∷ []) }
{
    let mut events = Vec::new(alloc);
    events.push(Event::Take { conn })?;
    for _ in 0..puts {
        events.push(Event::Put { conn, at })?;
    }
    events.push(Event::Finish { conn })?;
    Ok(events)
}

/// The events that a verb stands for, in their order: itself, or of `work` the take, so many puts and the finish, or of `poll`
/// the ask, the read and the deliver.
pub fn expand(alloc: Global, verb: &Verb) -> Result<Vec<Event>, OutOfMemory>
    ensures { IfOk result (λ v. v.items ≡ expand verb.now) }
{
    match verb {
        Verb::One { event } => {
            let mut events = Vec::new(alloc);
            events.push(event.copy(alloc)?)?;
            Ok(events)
        }
        Verb::Work { conn, at, puts } => worked(alloc, *conn, *at, *puts),
        Verb::Poll { node } => {
            let mut events = Vec::new(alloc);
            events.push(Event::Ask { node: *node })?;
            events.push(Event::Read { node: *node })?;
            events.push(Event::Deliver { node: *node })?;
            Ok(events)
        }
    }
}
