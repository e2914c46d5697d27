ghost use Rattle.std.specs.Prelude.{◌≡◌, ◌+◌, ◌∷◌, [], All, IfOk, OnOk};
ghost use Rattle.cable_model.specs.Transcript.{with_line, with_lines, no_totals};
ghost use Rattle.node_world.specs.Steps.{IsPlayed};
ghost use Rattle.node_world.specs.Worlds.{IsStep};
ghost use Rattle.replay_cli.specs.Running.{CountsAs, RunsAs};

use crate::printing::push_lines;
use cable_base::OutOfMemory;
use cable_model::{Event, Line, Totals};
use node_world::{Said, World};
use std::alloc::Global;

/// How many events were stepped, how many of them were idle, and what their lines come to.
#[derive(Clone, Copy, Debug, PartialEq, Eq)]
pub struct Tally {
    pub events: u64,
    pub idle: u64,
    pub totals: Totals,
}

impl Tally {
    /// Nothing was stepped.
    pub fn empty() -> Tally
        ensures { result ≡ record { events = 0; idle = 0; totals = no_totals } }
    {
        Tally {
            events: 0,
            idle: 0,
            totals: Totals {
                rows: 0,
                trimmed: 0,
                texts: 0,
                notes: 0,
            },
        }
    }
}

/// A count that would pass its end is answered as want of memory.
pub fn more(count: u64, by: u64) -> Result<u64, OutOfMemory>
    ensures { IfOk result (λ n. n ≡ count + by) }
{
    count.checked_add(by).ok_or(OutOfMemory)
}

fn count_line(totals: &mut Totals, line: &Line) -> Result<(), OutOfMemory>
    ensures { OnOk result (totals.new ≡ with_line totals.old line.now) }
{
    match line {
        Line::Text { .. } => totals.texts = more(totals.texts, 1)?,
        Line::Note { .. } => totals.notes = more(totals.notes, 1)?,
        Line::Row { .. } => totals.rows = more(totals.rows, 1)?,
        Line::Trimmed { count } => totals.trimmed = more(totals.trimmed, *count)?,
    }
    Ok(())
}

fn count_lines(totals: &mut Totals, lines: &[Line]) -> Result<(), OutOfMemory>
    ensures { OnOk result (totals.new ≡ with_lines totals.old lines.now) }
{
    for line in lines {
        count_line(totals, line)?;
    }
    Ok(())
}

/// Steps one event, counts it, and gives what it said.
fn step_event(
    alloc: Global,
    world: &mut World,
    event: &Event,
    tally: &mut Tally,
) -> Result<Said, OutOfMemory>
    requires { IsPlayed event.now }
    ensures said { IfOk result (λ said. IsStep event.now world.old said world.new) }
    ensures counts { OnOk result (CountsAs (event.now ∷ []) world.old world.new tally.old tally.new) }
    ensures book { world.new.book ≡ world.old.book }
{
    let said = world.step(alloc, event)?;
    count_lines(&mut tally.totals, said.lines.as_slice())?;
    tally.events = more(tally.events, 1)?;
    if said.idle {
        tally.idle = more(tally.idle, 1)?;
    }
    Ok(said)
}

/// Steps one event, counts it, and writes its lines behind the text.
fn run_event(
    alloc: Global,
    world: &mut World,
    event: &Event,
    text: &mut Vec<u8>,
    tally: &mut Tally,
) -> Result<(), OutOfMemory>
    requires { IsPlayed event.now }
    ensures runs { OnOk result (RunsAs (event.now ∷ []) world.old world.new text.old.items text.new.items tally.old tally.new) }
    ensures book { world.new.book ≡ world.old.book }
{
    let said = step_event(alloc, world, event, tally)?;
    push_lines(alloc, text, said.lines.as_slice())
}

/// Steps events, counts them, and writes their lines behind the text.
pub fn run_events(
    alloc: Global,
    world: &mut World,
    events: &[Event],
    text: &mut Vec<u8>,
    tally: &mut Tally,
) -> Result<(), OutOfMemory>
    requires { All IsPlayed events.now }
    ensures runs { OnOk result (RunsAs events.now world.old world.new text.old.items text.new.items tally.old tally.new) }
    ensures book { world.new.book ≡ world.old.book }
{
    for event in events {
        run_event(alloc, world, event, text, tally)?;
    }
    Ok(())
}

/// Steps events and counts them. Their lines are written nowhere.
pub fn count_events(
    alloc: Global,
    world: &mut World,
    events: &[Event],
    tally: &mut Tally,
) -> Result<(), OutOfMemory>
    requires { All IsPlayed events.now }
    ensures counts { OnOk result (CountsAs events.now world.old world.new tally.old tally.new) }
    ensures book { world.new.book ≡ world.old.book }
{
    for event in events {
        step_event(alloc, world, event, tally)?;
    }
    Ok(())
}
