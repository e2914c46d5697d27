ghost use Rattle.std.specs.Prelude.{◌<◌};

use crate::books::book;
use crate::messages::commit_rows;
use crate::nodes::{count_all, opens, work_all, work_off};
use crate::stops::Stop;
use crate::turns::{timed_ask, turn};
use cable_base::{ConnNo, NodeNo, RowId, Steps};
use channel_book::Book;
use node_core::Node;
use std::alloc::Global;
use std::io;
use std::io::Eprint;
use std::sync::ledger::Ledger;
use std::time::{Clock, Instant};
use table_core::{MemKeeper, Table};

/// How many Asks a run times.
const ASKS: u64 = 1_000;

/// A subscription of the room to which the rows go, and one of another room.
pub const IN_THE_ROOM: &str =
    "{\"command\":\"subscribe\",\"identifier\":\"{\\\"channel\\\":\\\"Chat\\\",\\\"room\\\":1}\"}";

const ELSEWHERE: &str =
    "{\"command\":\"subscribe\",\"identifier\":\"{\\\"channel\\\":\\\"Chat\\\",\\\"room\\\":2}\"}";

/// What a run measures: a node with so many connections, of which the first hold the room, and so many rows of the room.
#[derive(Clone, Copy)]
pub struct Room {
    pub conns: u64,
    pub holders: u64,
    pub rows: u64,
    /// The length of a row's payload.
    pub bytes: u64,
}

/// Opens the connections, of which the first subscribe to the room.
fn fill(node: &mut Node, alloc: Global, book: &Book, room: Room) -> bool {
    for number in 1..=room.conns {
        let conn = ConnNo(number);
        let text = if number <= room.holders {
            IN_THE_ROOM
        } else {
            ELSEWHERE
        };
        if !opens(node, alloc, book, conn, number) || node.arrive(conn, text).is_err() {
            return false;
        }
        work_off(node, book, conn);
    }
    true
}

/// Tells what a row cost each of its holders since the start.
fn tell<R: Eprint + Clock>(rt: &R, what: &str, room: Room, start: Instant) -> io::Result<()> {
    let pieces = u128::from(room.rows.max(1)) * u128::from(room.holders.max(1));
    let nanos = start.elapsed(rt)?.as_nanos() / pieces;
    let Room {
        conns,
        holders,
        rows: _,
        bytes,
    } = room;
    eprintln!(rt;
        "{what} with {holders} of {conns} connections in the room, {bytes} bytes: {nanos} ns a row and holder"
    )
}

/// Brings the rows by a turn and works them, and answers how many messages came of them.
fn bring<R: Eprint + Clock, L: Ledger>(
    rt: &R,
    node: &mut Node,
    book: &Book,
    table: &mut Table<MemKeeper>,
    steps: &mut Steps<L>,
    room: Room,
) -> Result<u64, Stop> {
    let start = Instant::now(rt)?;
    if !turn(node, table, steps) {
        return Err(Stop::Refused);
    }
    tell(rt, "a turn", room, start)?;
    let start = Instant::now(rt)?;
    work_all(node, book, room.conns);
    tell(rt, "the work", room, start)?;
    Ok(count_all(node, 1, room.conns))
}

/// Times Asks, and answers how many names the last one asked for.
fn ask<R: Eprint + Clock, L: Ledger>(
    rt: &R,
    node: &mut Node,
    table: &mut Table<MemKeeper>,
    steps: &mut Steps<L>,
) -> Result<u64, Stop> {
    let mut nanos: u128 = 0;
    let mut names = 0;
    for _ in 0..ASKS {
        let asked = timed_ask(rt, node, table, steps)?;
        nanos = nanos.saturating_add(asked.nanos);
        names = asked.names;
    }
    let nanos = nanos / u128::from(ASKS);
    eprintln!(rt; "an Ask with {names} names: {nanos} ns")?;
    Ok(names)
}

/// Measures a node that was booted.
fn measure_on<R: Print + Eprint + Clock, L: Ledger>(
    rt: &R,
    alloc: Global,
    node: &mut Node,
    book: &Book,
    table: &mut Table<MemKeeper>,
    steps: &mut Steps<L>,
    room: Room,
) -> Result<(), Stop> {
    if !fill(node, alloc, book, room) || !turn(node, table, steps) {
        return Err(Stop::Refused);
    }
    work_all(node, book, room.conns);
    let before = count_all(node, 1, room.conns);
    let names = ask(rt, node, table, steps)?;
    commit_rows(alloc, table, room)?;
    let messages = bring(rt, node, book, table, steps, room)?;
    let Room {
        conns,
        holders,
        rows,
        bytes,
    } = room;
    println!(rt;
        "{holders} of {conns} connections in the room: {before} texts before, {names} names, {messages} messages of {rows} rows of {bytes} bytes"
    )?;
    Ok(())
}

/// A table without rows.
pub fn empty_table(alloc: Global) -> Result<Table<MemKeeper>, Stop> {
    match Table::start(alloc, MemKeeper::empty(alloc)) {
        Ok(table) => Ok(table),
        Err(_) => Err(Stop::Refused),
    }
}

/// Measures a node with these connections.
pub fn measure<R: Print + Eprint + Clock, L: Ledger>(
    rt: &R,
    alloc: Global,
    steps: &mut Steps<L>,
    room: Room,
) -> Result<(), Stop> {
    let book = book(alloc, room.conns)?;
    let mut table = empty_table(alloc)?;
    let mut node = Node::boot(alloc, NodeNo(1), RowId(0))?;
    measure_on(rt, alloc, &mut node, &book, &mut table, steps, room)
}
