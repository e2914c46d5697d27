ghost use Rattle.std.specs.Prelude.{◌<◌};

use crate::books::book;
use crate::nodes::{count_all, count_texts, opens};
use crate::stops::Stop;
use cable_base::{ConnNo, Millis, NodeNo, RowId};
use channel_book::Book;
use node_core::Node;
use std::alloc::Global;
use std::io::Eprint;
use std::time::{Clock, Instant};

/// How many connections are live, and how many beats a run times.
const LIVE: u64 = 10;

const BEATS: u64 = 100;

/// Opens so many connections with a token of nobody, which are over at once, and forgets each.
fn pass(node: &mut Node, book: &Book, over: u64) -> bool {
    for number in 1..=over {
        let conn = ConnNo(number);
        if node.open_conn(conn, "nobody", book).is_err() || count_texts(node, conn) != 1 {
            return false;
        }
        if !node.may_forget(conn) {
            return false;
        }
        node.forget(conn);
    }
    true
}

/// Opens the connections that are live, behind those that are over.
fn open_live(node: &mut Node, alloc: Global, book: &Book, over: u64) -> bool {
    for user in 1..=LIVE {
        let conn = ConnNo(over.saturating_add(user));
        if !opens(node, alloc, book, conn, user) {
            return false;
        }
    }
    true
}

/// How many texts are queued on the connections that are live.
fn count_live(node: &mut Node, over: u64) -> u64 {
    count_all(node, over.saturating_add(1), LIVE)
}

/// Beats, and answers how many pings were said.
fn beat<R: Eprint + Clock>(rt: &R, node: &mut Node, over: u64) -> Result<u64, Stop> {
    let start = Instant::now(rt)?;
    for moment in 0..BEATS {
        node.beat(Millis(moment))?;
    }
    let nanos = start.elapsed(rt)?.as_nanos() / u128::from(BEATS);
    eprintln!(rt; "a beat with {LIVE} live connections behind {over} that are over: {nanos} ns")?;
    Ok(count_live(node, over))
}

/// Measures the beats of a node with so many connections that are over.
pub fn measure<R: Print + Eprint + Clock>(rt: &R, alloc: Global, over: u64) -> Result<(), Stop> {
    let book = book(alloc, LIVE)?;
    let mut node = Node::boot(alloc, NodeNo(1), RowId(0))?;
    if !pass(&mut node, &book, over) || !open_live(&mut node, alloc, &book, over) {
        return Err(Stop::Refused);
    }
    let welcomes = count_live(&mut node, over);
    let pings = beat(rt, &mut node, over)?;
    println!(rt;
        "{LIVE} live connections behind {over} that are over: {welcomes} texts before, {pings} pings in {BEATS} beats"
    )?;
    Ok(())
}
