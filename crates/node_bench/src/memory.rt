ghost use Rattle.std.specs.Prelude.{◌<◌};

use crate::books::book;
use crate::messages::commit_rows;
use crate::nodes::{count_all, count_texts, opens, work_all, work_off};
use crate::rooms::{IN_THE_ROOM, Room, empty_table};
use crate::stops::Stop;
use crate::turns::turn;
use cable_base::{ConnNo, Millis, NodeNo, RowId, Steps};
use channel_book::Book;
use node_core::Node;
use std::alloc::Global;
use std::io::Eprint;
use std::sync::ledger::Ledger;
use std::time::Clock;
use table_core::{MemKeeper, Table};

/// A hundred rows, each told ten connections: what `deliveries` and `logged` bring at once.
const BATCH: Room = Room {
    conns: 10,
    holders: 10,
    rows: 100,
    bytes: 10,
};

/// The rows that a visit is told.
const VISIT: Room = Room {
    conns: 1,
    holders: 1,
    rows: 3,
    bytes: 10,
};

/// A run whose greatest resident set is asked for.
#[derive(Clone, Copy, Debug)]
pub enum Run {
    /// So many deliveries on ten connections, on a node without a log.
    Deliveries(u64),
    /// The same on a node that stores its log.
    Logged(u64),
    /// So many connections that come, subscribe, are told three rows, go and are forgotten, on a node without a log.
    Visits(u64),
}

impl Run {
    /// The run that these words ask for.
    pub fn of(words: &[String]) -> Option<Run> {
        let [kind, count] = words else {
            return None;
        };
        let count: u64 = count.as_str().parse().ok()?;
        match kind.as_str() {
            "deliveries" => Some(Run::Deliveries(count)),
            "logged" => Some(Run::Logged(count)),
            "visits" => Some(Run::Visits(count)),
            _ => None,
        }
    }
}

/// Opens a connection of the first user and subscribes it to the room.
fn enters(node: &mut Node, alloc: Global, book: &Book, conn: ConnNo) -> bool {
    if !opens(node, alloc, book, conn, 1) || node.arrive(conn, IN_THE_ROOM).is_err() {
        return false;
    }
    work_off(node, book, conn);
    true
}

/// Brings rows by a turn, and trims them.
fn brings<L: Ledger>(
    alloc: Global,
    node: &mut Node,
    table: &mut Table<MemKeeper>,
    steps: &mut Steps<L>,
    room: Room,
) -> Result<(), Stop> {
    commit_rows(alloc, table, room)?;
    if !turn(node, table, steps) {
        return Err(Stop::Refused);
    }
    table.trim(Millis(1), Millis(0), room.rows)?;
    Ok(())
}

/// Delivers so many rows, a batch of them at a time, and answers how many texts came of all.
fn deliver<L: Ledger>(
    alloc: Global,
    node: &mut Node,
    book: &Book,
    steps: &mut Steps<L>,
    deliveries: u64,
) -> Result<u64, Stop> {
    let mut table = empty_table(alloc)?;
    for number in 1..=BATCH.conns {
        if !enters(node, alloc, book, ConnNo(number)) {
            return Err(Stop::Refused);
        }
    }
    let mut texts: u64 = 0;
    for _ in 0..deliveries / (BATCH.conns * BATCH.rows) {
        brings(alloc, node, &mut table, steps, BATCH)?;
        work_all(node, book, BATCH.conns);
        texts = texts.saturating_add(count_all(node, 1, BATCH.conns));
    }
    Ok(texts)
}

/// A connection comes, subscribes, is told the rows of a visit, goes and is forgotten. It answers how many texts it was told.
fn visit<L: Ledger>(
    alloc: Global,
    node: &mut Node,
    book: &Book,
    table: &mut Table<MemKeeper>,
    steps: &mut Steps<L>,
    conn: ConnNo,
) -> Result<u64, Stop> {
    if !enters(node, alloc, book, conn) || !turn(node, table, steps) {
        return Err(Stop::Refused);
    }
    work_off(node, book, conn);
    brings(alloc, node, table, steps, VISIT)?;
    work_off(node, book, conn);
    if !node.gone(conn)? {
        return Err(Stop::Refused);
    }
    work_off(node, book, conn);
    let texts = count_texts(node, conn);
    if !node.may_forget(conn) {
        return Err(Stop::Refused);
    }
    node.forget(conn);
    Ok(texts)
}

/// Lets so many connections visit, one behind the other, and answers how many texts they were told.
fn visit_all<L: Ledger>(
    alloc: Global,
    node: &mut Node,
    book: &Book,
    steps: &mut Steps<L>,
    visits: u64,
) -> Result<u64, Stop> {
    let mut table = empty_table(alloc)?;
    let mut texts: u64 = 0;
    for number in 1..=visits {
        let told = visit(alloc, node, book, &mut table, steps, ConnNo(number))?;
        texts = texts.saturating_add(told);
    }
    Ok(texts)
}

/// Makes the run, and tells how many texts the connections were told.
pub fn measure<R: Print, L: Ledger>(
    rt: &R,
    alloc: Global,
    steps: &mut Steps<L>,
    run: Run,
) -> Result<(), Stop> {
    let book = book(alloc, 1)?;
    let mut node = match run {
        Run::Logged(_) => Node::boot(alloc, NodeNo(1), RowId(0))?,
        Run::Deliveries(_) | Run::Visits(_) => Node::boot_unlogged(alloc, NodeNo(1), RowId(0)),
    };
    let texts = match run {
        Run::Deliveries(count) | Run::Logged(count) => {
            deliver(alloc, &mut node, &book, steps, count)?
        }
        Run::Visits(count) => visit_all(alloc, &mut node, &book, steps, count)?,
    };
    println!(rt; "{texts} texts")?;
    Ok(())
}
