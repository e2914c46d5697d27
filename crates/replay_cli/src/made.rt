ghost use Rattle.std.specs.Prelude.{◌≡◌, ◌≤◌, ◌∷◌, ◌++◌, [], IfOk, OnOk};
ghost use Rattle.replay_cli.specs.Made.{draw_of, drawn, generator, opening, opens, verb_of_draw};
ghost use Rattle.replay_cli.specs.MadeRuns.{HasRun, IsPlayable, RunsOn, boots};
ghost use Rattle.replay_cli.specs.Modes.{most_made};
ghost use Rattle.replay_cli.specs.Outputs.{writing_of};
ghost use Rattle.replay_cli.specs.Replay.{MadeDoes};

use crate::draws::Draw;
use crate::modes::Mode;
use crate::outputs::write_all;
use crate::printing::tail_text;
use crate::running::{Tally, count_events};
use cable_base::{ConnNo, NodeNo, OutOfMemory, Sink, Text, Trouble};
use cable_model::{Event, Status, Verb};
use cable_script::expand;
use channel_book::Book;
use node_world::World;
use rand_core::utils::NextWord;
use rand_pcg::Lcg64Xsh32;
use std::alloc::Global;

/// Eight users, and one channel of rooms to which each may speak.
const BOOK: &str =
    r#"{"tokens":{"t1":"u1","t2":"u2","t3":"u3","t4":"u4","t5":"u5","t6":"u6","t7":"u7","t8":"u8"},"channels":[{"name":"Chat","requires":["room"],"streams":["room_{room}"],"actions":[{"name":"speak","casts":["room_{room}"]}]}]}"#;

/// The stream of the generator's draws.
const STREAM: u64 = 54;

const CLIENTS: u64 = 8;

/// A world that is run, and what its lines came to.
#[derive(Debug, Drop)]
struct Run {
    world: World,
    tally: Tally,
}

impl Run {
    fn begin(alloc: Global) -> Result<Run, OutOfMemory>
        ensures { IfOk result (λ r. HasRun [] r.world r.tally) }
    {
        // The text is a book, so nothing but memory can be wanted.
        let book = Book::read(alloc, BOOK).ok().ok_or(OutOfMemory)?;
        Ok(Run {
            world: World::make(alloc, book)?,
            tally: Tally::empty(),
        })
    }

    fn work(&mut self, alloc: Global, verb: &Verb) -> Result<(), OutOfMemory>
        requires { IsPlayable verb.now }
        ensures { OnOk result (RunsOn (verb.now ∷ []) self.old.world self.new.world self.old.tally self.new.tally) }
    {
        let events = expand(alloc, verb)?;
        count_events(alloc, &mut self.world, &events, &mut self.tally)
    }

    fn boot(&mut self, alloc: Global, node: NodeNo) -> Result<(), OutOfMemory>
        ensures { OnOk result (RunsOn (boots node ∷ []) self.old.world self.new.world self.old.tally self.new.tally) }
    {
        let event = Event::Boot { node };
        self.work(alloc, &Verb::One { event })
    }

    /// Of the clients the odd ones come to the first node, and the even ones to the second.
    fn open(&mut self, alloc: Global, client: u64) -> Result<(), OutOfMemory>
        ensures { OnOk result (RunsOn (opens client ∷ []) self.old.world self.new.world self.old.tally self.new.tally) }
    {
        let event = Event::Open {
            node: if client % 2 == 1 {
                NodeNo(1)
            } else {
                NodeNo(2)
            },
            conn: ConnNo(client),
            token: Text::of(format!(in alloc; "t{}", client)?)?,
        };
        self.work(alloc, &Verb::One { event })
    }

    /// Two nodes are booted, and eight clients come.
    fn fill(&mut self, alloc: Global) -> Result<(), OutOfMemory>
        ensures { OnOk result (RunsOn opening self.old.world self.new.world self.old.tally self.new.tally) }
    {
        self.boot(alloc, NodeNo(1))?;
        self.boot(alloc, NodeNo(2))?;
        for client in 1..=CLIENTS {
            self.open(alloc, client)?;
        }
        Ok(())
    }

    /// The line of a draw.
    fn draw(&mut self, alloc: Global, place: u64, word: u32) -> Result<(), OutOfMemory>
        requires { place ≤ most_made }
        ensures { OnOk result (RunsOn (verb_of_draw (draw_of place word) ∷ []) self.old.world self.new.world self.old.tally self.new.tally) }
    {
        let verb = Draw::of(place, word).verb(alloc)?;
        self.work(alloc, &verb)
    }

    /// A line for each draw.
    fn draw_all(&mut self, alloc: Global, seed: u64, count: u64) -> Result<(), OutOfMemory>
        requires { count ≤ most_made }
        ensures { OnOk result (RunsOn (drawn count 1 (generator seed)) self.old.world self.new.world self.old.tally self.new.tally) }
    {
        let mut source = Lcg64Xsh32::new(seed, STREAM);
        for place in 1..=count {
            self.draw(alloc, place, source.next_word())?;
        }
        Ok(())
    }
}

fn run_made(alloc: Global, seed: u64, count: u64) -> Result<Run, OutOfMemory>
    requires { count ≤ most_made }
    ensures { IfOk result (λ r. HasRun (opening ++ drawn count 1 (generator seed)) r.world r.tally) }
{
    let mut run = Run::begin(alloc)?;
    run.fill(alloc)?;
    run.draw_all(alloc, seed, count)?;
    Ok(run)
}

/// Runs the script that is made of this seed, writes its end line and its totals line, and gives the world.
pub fn replay_made<K: Sink>(
    alloc: Global,
    seed: u64,
    count: u64,
    sink: &mut K,
) -> Result<World, Status>
    requires { 1 ≤ count × (count ≤ most_made) }
    ensures faults { K.faults sink.old ≤ K.faults sink.new }
    ensures made { MadeDoes seed count (writing_of K.taken K.faults sink.old sink.new) result }
{
    let run = run_made(alloc, seed, count)?;
    let text = tail_text(alloc, Mode::Totals, &run.tally)?;
    match write_all(sink, text.as_str().as_bytes()) {
        Ok(()) => Ok(run.world),
        Err(Trouble::Failed) => Err(Status::WriteFault),
        Err(Trouble::OutOfMemory) => Err(Status::OutOfMemory),
    }
}
