ghost use Rattle.std.specs.Prelude.{◌≡◌, ◌↔◌, ◌≤◌, ℕ, List, [], Option, None, map, string_bytes};
ghost use Rattle.cable_model.specs.declared.statuses.Status.TheVariants as status;
ghost use Rattle.node_world.specs.Worlds.{WorldState};
ghost use Rattle.replay_cli.specs.Inputs.{reading_of};
ghost use Rattle.replay_cli.specs.Modes.{order_of};
ghost use Rattle.replay_cli.specs.Outputs.{writing_of};
ghost use Rattle.replay_cli.specs.Reading.{HasRead};
ghost use Rattle.replay_cli.specs.Replay.{Outcome, ReadOutcome, Met, Hands, IsComplete};

use crate::made::replay_made;
use crate::modes::{Mode, Order, order_of};
use crate::replaying::Replaying;
use cable_base::{Sink, Source};
use cable_laws::windows_of_histories;
use cable_model::Status;
use cable_script::first_breaks_are_one;
use node_world::World;
use std::alloc::Global;

/// Reads the source to its end and works what it is: the status without a fault of the last write.
fn met<S: Source, K: Sink>(
    alloc: Global,
    replaying: &mut Replaying,
    source: &mut S,
    sink: &mut K,
) -> Status
    requires { HasRead [] [] replaying.old }
    ensures faults { K.faults sink.old ≤ K.faults sink.new }
    ensures mode { replaying.new.mode ≡ replaying.old.mode }
    ensures met { Met replaying.old.mode (reading_of S.left S.ends S.faults source.old source.new) (writing_of K.taken K.faults sink.old sink.new) replaying.new result }
{
    if let Err(status) = replaying.read_all(alloc, source, sink) {
        return status;
    }
    match replaying.end(alloc) {
        Ok(()) => Status::Ok,
        Err(status) => status,
    }
}

/// Reads the source to its end, works what it is, and writes what stands before a refusal. A fault of the sink wins.
fn play<S: Source, K: Sink>(
    alloc: Global,
    replaying: &mut Replaying,
    source: &mut S,
    sink: &mut K,
) -> Status
    requires { HasRead [] [] replaying.old }
    ensures { (words : List (List ℕ)) (world : Option WorldState) → Hands replaying.new world → ReadOutcome replaying.old.mode result (record {
      words = words;
      source = reading_of S.left S.ends S.faults source.old source.new;
      sink = writing_of K.taken K.faults sink.old sink.new;
      world = world;
    }) }
{
    // However much of the script is worked, the rows that it finishes are those of the windows.
    windows_of_histories();
    let met = met(alloc, replaying, source, sink);
    match met {
        Status::WriteFault | Status::OutOfMemory => met,
        _ => match replaying.flush(sink) {
            Ok(()) => met,
            Err(fault) => fault,
        },
    }
}

/// Replays the script of the source, and hands out its world.
fn replay_read<S: Source, K: Sink>(
    alloc: Global,
    mode: Mode,
    source: &mut S,
    sink: &mut K,
    world: &mut Option<World>,
) -> Status
    ensures { (words : List (List ℕ)) → ReadOutcome mode result (record {
      words = words;
      source = reading_of S.left S.ends S.faults source.old source.new;
      sink = writing_of K.taken K.faults sink.old sink.new;
      world = world.new;
    }) }
{
    let mut replaying = Replaying::begin(alloc, mode);
    let status = play(alloc, &mut replaying, source, sink);
    *world = replaying.into_world();
    status
}

/// Replays a session script: reads it from the source line by line, steps the events of each line in a world of its own, and writes what they
/// say to the sink. What is written goes out in pieces of 64 KiB, before each read of the source, and at the end.
///
/// The words are none; `--totals`, for a line of totals behind the transcript; `--print`, for the script again with a line for each event,
/// where no event is run; or `--make` with a seed below 2^64 and a count from 1 to `MOST_MADE`, for a made script of which the end line and
/// the totals line alone are written, and for which the source isn't read.
///
/// - `Ok`: the source was read to its end, its bytes are a script, and all is written. The world stands for its events.
/// - `Usage`: the words are none of these. Nothing is read or written, and there is no world.
/// - `BadScript`, `BadBook`, `TooLong`, `Unended`: this is the first break. What is to be written for the lines before it is written, without an
///   end line, and the world stands for their events; before a book is read there is none.
/// - `ReadFault`, `TooMuch`: the source failed, or gave over `MOST_SCRIPT` bytes. The same holds of the lines that were whole, where the piece that goes
///   past them isn't looked at.
/// - `WriteFault`, `OutOfMemory`: a beginning of what was to be written is written. Of the world nothing is said.
///
/// With `--print` there is never a world.
pub fn replay<S: Source, K: Sink>(
    alloc: Global,
    words: &[String],
    source: &mut S,
    sink: &mut K,
    world: &mut Option<World>,
) -> Status
    requires { world.old ≡ None }
    ensures usage { (result ≡ status.Usage) ↔ (order_of (map string_bytes words.now) ≡ None) }
    ensures outcome { Outcome result (record {
      words = map string_bytes words.now;
      source = reading_of S.left S.ends S.faults source.old source.new;
      sink = writing_of K.taken K.faults sink.old sink.new;
      world = world.new;
    }) }

    // Where nothing fails a script is replayed whole, and other bytes are refused with their first break, unless memory runs out.
    ensures complete { IsComplete result (record {
      words = map string_bytes words.now;
      source = reading_of S.left S.ends S.faults source.old source.new;
      sink = writing_of K.taken K.faults sink.old sink.new;
      world = world.new;
    }) }
{
    // So a made script is of the windows too, and no script has two first breaks.
    windows_of_histories();
    first_breaks_are_one();
    match order_of(words) {
        None => Status::Usage,
        Some(Order::Read { mode }) => replay_read(alloc, mode, source, sink, world),
        Some(Order::Make { seed, count }) => match replay_made(alloc, seed, count, sink) {
            Ok(run) => {
                *world = Some(run);
                Status::Ok
            }
            Err(status) => status,
        },
    }
}
