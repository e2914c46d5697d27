//! Measures a world of eight nodes with a hundred connections each: what a cast with a poll of all nodes costs by how many of the connections hold
//! its stream. It writes what each run came to on standard output, which is the same at each run, and the times on standard error.
#![tactic(auto)]

ghost use Rattle.std.specs.Prelude.{◌≡◌, IfOk};
ghost use Rattle.cable_base.specs.Squeeze.{IsSqueezedJson};
ghost use Rattle.node_world.specs.Steps.{IsPlayed};

use cable_base::{ConnNo, MOST_PAYLOAD, Millis, Name, NodeNo, OutOfMemory, Text, squeeze};
use cable_model::Event;
use channel_book::Book;
use node_world::World;
use serde_json::Value;
use std::alloc::Global;
use std::io;
use std::io::Eprint;
use std::process::ExitCode;
use std::time::{Clock, Instant};

const NODES: u32 = 8;

/// How many connections each node has.
const CONNS: u64 = 100;

/// How many rows are cast, each with a poll of all nodes.
const ROWS: u64 = 20;

const BOOK: &str =
    "{\"tokens\":{\"t\":\"ann\"},\"channels\":[{\"name\":\"Chat\",\"requires\":[\"room\"],\"streams\":[\"room_{room}\"]}]}";

/// A subscription of the room to which the rows go, and one of another room.
const IN_THE_ROOM: &str =
    "{\"command\":\"subscribe\",\"identifier\":\"{\\\"channel\\\":\\\"Chat\\\",\\\"room\\\":1}\"}";

const ELSEWHERE: &str =
    "{\"command\":\"subscribe\",\"identifier\":\"{\\\"channel\\\":\\\"Chat\\\",\\\"room\\\":2}\"}";

/// Why a run ended early.
#[derive(Debug, Drop)]
enum Stop {
    OutOfMemory,
    Refused,
    Io(io::Error),
}

impl From<OutOfMemory> for Stop {
    fn from(_e: OutOfMemory) -> Stop {
        Stop::OutOfMemory
    }
}

impl From<io::Error> for Stop {
    fn from(e: io::Error) -> Stop {
        Stop::Io(e)
    }
}

/// Steps an event, and answers how many lines it said.
fn step(alloc: Global, world: &mut World, event: &Event) -> Result<u64, Stop>
    requires { IsPlayed event.now }
{
    let said = world.step(alloc, event)?;
    Ok(said.lines.as_slice().len() as u64)
}

/// Makes one turn of the node's listener.
fn poll(alloc: Global, world: &mut World, node: NodeNo) -> Result<(), Stop> {
    step(alloc, world, &Event::Ask { node })?;
    step(alloc, world, &Event::Read { node })?;
    step(alloc, world, &Event::Deliver { node })?;
    Ok(())
}

fn poll_all(alloc: Global, world: &mut World) -> Result<(), Stop> {
    for number in 1..=NODES {
        poll(alloc, world, NodeNo(number))?;
    }
    Ok(())
}

/// Works so many pieces of a connection, and answers how many lines were said.
fn work(alloc: Global, world: &mut World, conn: ConnNo, pieces: u64) -> Result<u64, Stop> {
    let mut lines: u64 = 0;
    for _ in 0..pieces {
        step(alloc, world, &Event::Take { conn })?;
        lines = lines.saturating_add(step(alloc, world, &Event::Finish { conn })?);
    }
    Ok(lines)
}

/// Works so many pieces of each connection. Those of the first node are numbered from 101, and so on.
fn work_all(alloc: Global, world: &mut World, pieces: u64) -> Result<u64, Stop> {
    let mut lines: u64 = 0;
    for number in CONNS..=u64::from(NODES + 1) * CONNS {
        lines = lines.saturating_add(work(alloc, world, ConnNo(number), pieces)?);
    }
    Ok(lines)
}

/// Opens a connection that subscribes with this text.
fn open(
    alloc: Global,
    world: &mut World,
    node: NodeNo,
    conn: ConnNo,
    text: &str,
) -> Result<(), Stop> {
    let token = Text::new(alloc, "t")?;
    step(alloc, world, &Event::Open { node, conn, token })?;
    let text = Text::new(alloc, text)?;
    step(alloc, world, &Event::In { conn, text })?;
    Ok(())
}

/// Opens the connections of a node, of which the first are in the room.
fn fill(alloc: Global, world: &mut World, node: NodeNo, holders: u64) -> Result<(), Stop> {
    step(alloc, world, &Event::Boot { node })?;
    for number in 1..=CONNS {
        let text = if number <= holders {
            IN_THE_ROOM
        } else {
            ELSEWHERE
        };
        let conn = ConnNo(u64::from(node.0) * CONNS + number);
        open(alloc, world, node, conn, text)?;
    }
    Ok(())
}

/// The world before the rows: each connection is subscribed, and its confirmation is worked.
fn filled(alloc: Global, holders: u64) -> Result<World, Stop> {
    let Ok(book) = Book::read(alloc, BOOK) else {
        return Err(Stop::Refused);
    };
    let mut world = World::make(alloc, book)?;
    for number in 1..=NODES {
        fill(alloc, &mut world, NodeNo(number), holders)?;
    }
    work_all(alloc, &mut world, 1)?;
    poll_all(alloc, &mut world)?;
    work_all(alloc, &mut world, 1)?;
    Ok(world)
}

/// The cast of a row to the room.
fn cast(alloc: Global) -> Result<Event, Stop>
    ensures { IfOk result IsPlayed }
{
    let text = "{\"n\":1}";
    let payload = match Value::from_str(alloc, text) {
        Ok(_) => squeeze(alloc, text)?,
        Err(_) => return Err(Stop::Refused),
    };
    if payload.as_str().len() > MOST_PAYLOAD {
        return Err(Stop::Refused);
    }
    Ok(Event::Cast {
        at: Millis(0),
        channel: Name::new(alloc, "room_1")?,
        payload,
    })
}

/// Casts the rows, each with a poll of all nodes.
fn cast_all(alloc: Global, world: &mut World, row: &Event) -> Result<(), Stop>
    requires { IsPlayed row.now }
{
    for _ in 0..ROWS {
        step(alloc, world, row)?;
        poll_all(alloc, world)?;
    }
    Ok(())
}

fn measure<R: Print + Eprint + Clock>(rt: &R, alloc: Global, holders: u64) -> Result<(), Stop> {
    let mut world = filled(alloc, holders)?;
    let row = cast(alloc)?;
    let start = Instant::now(rt)?;
    cast_all(alloc, &mut world, &row)?;
    let nanos = start.elapsed(rt)?.as_nanos() / u128::from(ROWS);
    let messages = work_all(alloc, &mut world, ROWS)?;
    world.end();
    println!(rt; "{holders} of {CONNS} connections of each node in the room: {messages} messages")?;
    eprintln!(rt;
        "a cast with a poll of {NODES} nodes, {holders} of {CONNS} connections of each in the room: {nanos} ns"
    )?;
    Ok(())
}

fn run<R: Print + Eprint + Clock>(rt: &R, alloc: Global) -> Result<(), Stop> {
    for holders in [1, 10, 100] {
        measure(rt, alloc, holders)?;
    }
    Ok(())
}

fn main(rt: HostRuntime) -> ExitCode {
    match run(&rt, rt.alloc()) {
        Ok(()) => ExitCode::SUCCESS,
        Err(_) => ExitCode::FAILURE,
    }
}
