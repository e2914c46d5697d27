ghost use Rattle.std.specs.Prelude.{◌≡◌, ◌<◌};

use crate::{FreeGate, Gate, listen_once, work_once};
use cable_base::{ConnNo, Millis, NodeNo, RowId, Steps};
use cable_model::Entry;
use channel_book::Book;
use conn_seat::Out;
use node_core::{Desk, Ears, Node};
use std::alloc::Global;
use std::cell::Cell;
use std::marker::Brand;
use std::process::Abort;
use std::sync::ledger::{Blank, Ledger};
use std::test::Fail;
use table_core::{MemKeeper, NotStarted, Reads, Store, Table};

const CLUB: &str =
    r#"{"tokens":{"t1":"ann"},"channels":[{"name":"Club","streams":["club"],"actions":[{"name":"speak","casts":["club"]}]}]}"#;

const ANN: ConnNo = ConnNo(3);

const SUBSCRIBE: &str = r#"{"command":"subscribe","identifier":"{\"channel\":\"Club\"}"}"#;

const SPEAK: &str =
    r#"{"command":"message","identifier":"{\"channel\":\"Club\"}","data":"{\"action\":\"speak\"}"}"#;

const WELCOME: &str = r#"{"type":"welcome"}"#;

const CONFIRMED: &str = r#"{"identifier":"{\"channel\":\"Club\"}","type":"confirm_subscription"}"#;

const SPOKEN: &str = r#"{"identifier":"{\"channel\":\"Club\"}","message":{"action":"speak"}}"#;

/// Counts how often it is entered with a piece of ann.
#[derive(Drop)]
struct CountedGate {
    entries: Cell<u64>,
}

impl Gate for CountedGate {
    fn enter(&self, conn: ConnNo) {
        if conn == ANN {
            self.entries.set(self.entries.get().saturating_add(1));
        }
    }
}

/// Ann's client comes.
fn comes<D: Desk>(desk: &mut D, book: &Book) -> bool {
    desk.open_conn(ANN, "t1", book).is_ok() && says(desk, WELCOME)
}

/// Ann's client sends this.
fn sends<D: Desk>(desk: &mut D, text: &str) -> bool {
    desk.arrive(ANN, text).is_ok()
}

/// Ann's client goes.
fn goes<D: Desk>(desk: &mut D) -> bool {
    matches!(desk.gone(ANN), Ok(true))
}

/// Whether this is what was queued first for ann, and nothing else is.
fn says<D: Desk>(desk: &mut D, text: &str) -> bool {
    match desk.take_out(ANN) {
        Some(Out::Text(queued)) => queued.as_str() == text && desk.take_out(ANN).is_none(),
        Some(Out::Note(_)) | None => false,
    }
}

/// Works one piece, which enters the gate once.
fn works<D: Desk, S: Store>(desk: &mut D, store: &mut S, book: &Book) -> bool {
    let gate = CountedGate {
        entries: Cell::new(0),
    };
    let worked = work_once(desk, store, book, &gate, Millis(5));
    matches!(worked, Ok(true)) && gate.entries.get() == 1
}

/// Finds no piece to work, and doesn't enter the gate.
fn is_idle<D: Desk, S: Store>(desk: &mut D, store: &mut S, book: &Book) -> bool {
    let gate = CountedGate {
        entries: Cell::new(0),
    };
    let worked = work_once(desk, store, book, &gate, Millis(5));
    matches!(worked, Ok(false)) && gate.entries.get() == 0
}

/// Makes one turn, which is delivered.
fn listens<E: Ears, S: Reads, L: Ledger>(
    ears: &mut E,
    store: &mut S,
    steps: &mut Steps<L>,
) -> bool {
    matches!(listen_once(ears, store, steps), Ok(true))
}

/// Makes no turn, since one is out.
fn waits<E: Ears, S: Reads, L: Ledger>(ears: &mut E, store: &mut S, steps: &mut Steps<L>) -> bool {
    matches!(listen_once(ears, store, steps), Ok(false))
}

/// Asks a turn and lets it go, so that it stays out.
fn asks<E: Ears>(ears: &mut E) -> bool {
    match ears.ask() {
        Ok(Some(turn)) => {
            turn.give_up();
            true
        }
        Ok(None) | Err(_) => false,
    }
}

/// Whether the entry that was logged last finishes a piece of ann with these commits.
fn finished(node: &Node, entries: u64, commits: &[Option<RowId>]) -> bool {
    let last = match node.log().last() {
        Some(Entry::Finish { conn, puts }) => *conn == ANN && puts.as_slice() == commits,
        _ => false,
    };
    last && node.log_len() == entries
}

/// A subscription is made without a broadcast, and confirmed with the turn that takes its stream.
fn subscribes<L: Ledger>(
    node: &mut Node,
    table: &mut Table<MemKeeper>,
    book: &Book,
    steps: &mut Steps<L>,
) -> bool {
    comes(node, book)
        && is_idle(node, table, book)
        && sends(node, SUBSCRIBE)
        && works(node, table, book)
        && finished(node, 5, &[])
        && listens(node, table, steps)
        && works(node, table, book)
        && says(node, CONFIRMED)
}

/// What is spoken is committed and logged with its row's id. It comes with the next turn.
fn speaks<L: Ledger>(
    node: &mut Node,
    table: &mut Table<MemKeeper>,
    book: &Book,
    steps: &mut Steps<L>,
) -> bool {
    sends(node, SPEAK)
        && works(node, table, book)
        && finished(node, 12, &[Some(RowId(1))])
        && table.last() == RowId(1)
        && node.take_out(ANN).is_none()
        && listens(node, table, steps)
        && works(node, table, book)
        && says(node, SPOKEN)
}

/// A commit that is refused is logged as none, and the work goes on. Then the client goes.
fn goes_on(node: &mut Node, table: &mut Table<MemKeeper>, book: &Book) -> bool {
    table.fail_next();
    sends(node, SPEAK)
        && works(node, table, book)
        && finished(node, 19, &[None])
        && table.last() == RowId(1)
        && node.take_out(ANN).is_none()
        && goes(node)
        && works(node, table, book)
        && is_idle(node, table, book)
        && node.is_over(ANN)
}

/// A table without rows.
fn start(alloc: Global) -> Result<Table<MemKeeper>, Fail> {
    match Table::start(alloc, MemKeeper::empty(alloc)) {
        Ok(table) => Ok(table),
        Err(NotStarted { .. }) => Err(Fail::from("not started")),
    }
}

fn runs<L: Ledger>(
    alloc: Global,
    node: &mut Node,
    book: &Book,
    steps: &mut Steps<L>,
) -> Result<[bool; 4], Fail> {
    let mut table = start(alloc)?;
    let subscribes = subscribes(node, &mut table, book, steps);
    let speaks = speaks(node, &mut table, book, steps);
    let goes_on = goes_on(node, &mut table, book);
    let waits = asks(node) && waits(node, &mut table, steps);
    Ok([subscribes, speaks, goes_on, waits])
}

fn run<L: Ledger>(rt: &impl Abort, alloc: Global, blank: Blank) -> Result<(), Fail>
    requires name { blank.name ≡ L.name }
    requires parts { blank.parts ≡ L.parts }
    requires some { 0 < blank.parts }
{
    let mut steps = Steps::<L>::begin(blank);
    let book = Book::read(alloc, CLUB)?;
    let mut node = Node::boot(alloc, NodeNo(1), RowId(0))?;
    let ran = runs(alloc, &mut node, &book, &mut steps)?;
    assert_eq!(rt; ran, [true; 4]);
    Ok(())
}

#[test]
fn works_and_listens_once(rt: HostRuntime) -> Result<(), Fail> {
    run::<Brand>(&rt, rt.alloc(), Blank::new(1))
}
