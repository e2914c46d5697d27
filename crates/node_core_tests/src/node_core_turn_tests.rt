ghost use Rattle.std.specs.Prelude.{◌≡◌, ◌<◌};

use crate::node_core_acts::{Act, first_fault};
use cable_base::{ConnNo, Millis, Name, NodeNo, Row, RowId, Steps};
use cable_fixtures::{ANN, CLUB, CONFIRMED, SUBSCRIBE, payload};
use channel_book::Book;
use node_core::Node;
use poll_turn::{Caught, Turn};
use std::alloc::Global;
use std::marker::Brand;
use std::process::Abort;
use std::sync::ledger::{Blank, Ledger};
use std::test::Fail;

const SAID: &str = r#"{"identifier":"{\"channel\":\"Club\"}","message":1}"#;

const WELCOME: &str = r#"{"type":"welcome"}"#;

const BEN: ConnNo = ConnNo(5);

const SUBSCRIBES: [Act; 4] = [
    Act::Opens(ANN, "t1"),
    Act::Says(ANN, WELCOME),
    Act::Hears(ANN, SUBSCRIBE),
    Act::Works(ANN),
];

const WAITS: [Act; 1] = [Act::IsIdle];

const IS_CONFIRMED: [Act; 3] = [Act::Works(ANN), Act::IsIdle, Act::Says(ANN, CONFIRMED)];

const GETS_A_ROW: [Act; 5] = [
    Act::Works(ANN),
    Act::IsIdle,
    Act::Says(ANN, SAID),
    Act::IsSilent(ANN),
    Act::Logs(RowId(5), 15),
];

/// The log begins again where the last turn that found something ended.
const LEAVES: [Act; 5] = [
    Act::Goes(ANN, true),
    Act::Works(ANN),
    Act::Forgets(ANN, true),
    Act::Resets(true),
    Act::Logs(RowId(9), 1),
];

const ANOTHER_SUBSCRIBES: [Act; 4] = [
    Act::Opens(BEN, "t1"),
    Act::Says(BEN, WELCOME),
    Act::Hears(BEN, SUBSCRIBE),
    Act::Works(BEN),
];

const ONE_IS_FORGOTTEN: [Act; 4] = [
    Act::Goes(ANN, true),
    Act::Works(ANN),
    Act::IsOver(ANN, true),
    Act::Forgets(ANN, true),
];

const THE_OTHER_IS_CONFIRMED: [Act; 5] = [
    Act::Works(BEN),
    Act::IsIdle,
    Act::Says(BEN, CONFIRMED),
    Act::IsSilent(BEN),
    Act::IsSilent(ANN),
];

/// The turn found one row of the club.
fn found(alloc: Global, turn: Turn, id: u64) -> Result<Caught, Turn> {
    let (Ok(channel), Ok(Some(payload))) = (Name::new(alloc, "club"), payload(alloc, "1")) else {
        return Err(turn);
    };
    let row = Row {
        id: RowId(id),
        channel,
        payload,
        created_at: Millis(1),
    };
    let Ok(rows) = Vec::from_array(alloc, [row]) else {
        return Err(turn);
    };
    Ok(turn.found(RowId(id), RowId(id), rows))
}

/// Delivers what was caught.
fn delivers<L: Ledger>(node: &mut Node, steps: &mut Steps<L>, caught: Caught) -> bool {
    if !node.expects(&caught) {
        caught.give_up();
        return false;
    }
    match node.deliver(caught, steps) {
        Ok(()) => true,
        Err(caught) => {
            caught.give_up();
            false
        }
    }
}

/// Whether no turn can be asked now.
fn asks_none(node: &mut Node) -> bool {
    match node.ask() {
        Ok(Some(turn)) => {
            turn.give_up();
            false
        }
        Ok(None) => true,
        Err(_) => false,
    }
}

/// Makes a turn that is missed, while which no other can be asked and the log can't begin again.
fn misses<L: Ledger>(node: &mut Node, steps: &mut Steps<L>) -> bool {
    let Ok(Some(turn)) = node.ask() else {
        return false;
    };
    let none = asks_none(node) && !node.may_reset();
    delivers(node, steps, turn.missed()) && none
}

/// Makes a turn that asks for so many names and finds one row of the club.
fn finds<L: Ledger>(
    node: &mut Node,
    steps: &mut Steps<L>,
    alloc: Global,
    id: u64,
    names: usize,
) -> bool {
    let Ok(Some(turn)) = node.ask() else {
        return false;
    };
    let asked = turn.hashes().len() == names;
    match found(alloc, turn, id) {
        Ok(caught) => delivers(node, steps, caught) && asked,
        Err(turn) => {
            turn.give_up();
            false
        }
    }
}

/// A missed turn takes no want. The next one places the stream: a row of its own is passed over, and the confirmation comes. From then on
/// rows come: the connection's own name and the club's are asked for.
fn turns<L: Ledger>(
    node: &mut Node,
    stores: bool,
    alloc: Global,
    book: &Book,
    steps: &mut Steps<L>,
) -> bool {
    first_fault(node, stores, alloc, book, &SUBSCRIBES).is_none()
        && misses(node, steps)
        && first_fault(node, stores, alloc, book, &WAITS).is_none()
        && finds(node, steps, alloc, 8, 0)
        && first_fault(node, stores, alloc, book, &IS_CONFIRMED).is_none()
        && finds(node, steps, alloc, 9, 2)
        && first_fault(node, stores, alloc, book, &GETS_A_ROW).is_none()
        && first_fault(node, stores, alloc, book, &LEAVES).is_none()
}

/// One of two connections is forgotten while a turn is out, which is missed. The next turn brings nothing for it, and the other is confirmed.
fn forgets_one<L: Ledger>(
    node: &mut Node,
    stores: bool,
    alloc: Global,
    book: &Book,
    steps: &mut Steps<L>,
) -> bool {
    if first_fault(node, stores, alloc, book, &SUBSCRIBES).is_some()
        || first_fault(node, stores, alloc, book, &ANOTHER_SUBSCRIBES).is_some()
    {
        return false;
    }
    let Ok(Some(turn)) = node.ask() else {
        return false;
    };
    let forgotten = first_fault(node, stores, alloc, book, &ONE_IS_FORGOTTEN).is_none();
    delivers(node, steps, turn.missed())
        && forgotten
        && first_fault(node, stores, alloc, book, &WAITS).is_none()
        && finds(node, steps, alloc, 8, 0)
        && first_fault(node, stores, alloc, book, &THE_OTHER_IS_CONFIRMED).is_none()
        && finds(node, steps, alloc, 9, 2)
}

fn run<L: Ledger>(rt: &impl Abort, alloc: Global, blank: Blank) -> Result<(), Fail>
    requires name { blank.name ≡ L.name }
    requires parts { blank.parts ≡ L.parts }
    requires some { 0 < blank.parts }
{
    let mut steps = Steps::<L>::begin(blank);
    let book = Book::read(alloc, CLUB)?;
    let mut node = Node::boot(alloc, NodeNo(1), RowId(5))?;
    assert!(rt; turns(&mut node, true, alloc, &book, &mut steps));
    let mut unlogged = Node::boot_unlogged(alloc, NodeNo(1), RowId(5));
    assert!(rt; turns(&mut unlogged, false, alloc, &book, &mut steps));
    Ok(())
}

#[test]
fn turns_bring_rows(rt: HostRuntime) -> Result<(), Fail> {
    run::<Brand>(&rt, rt.alloc(), Blank::new(1))
}

fn run_forgetting<L: Ledger>(rt: &impl Abort, alloc: Global, blank: Blank) -> Result<(), Fail>
    requires name { blank.name ≡ L.name }
    requires parts { blank.parts ≡ L.parts }
    requires some { 0 < blank.parts }
{
    let mut steps = Steps::<L>::begin(blank);
    let book = Book::read(alloc, CLUB)?;
    let mut node = Node::boot(alloc, NodeNo(1), RowId(5))?;
    assert!(rt; forgets_one(&mut node, true, alloc, &book, &mut steps));
    let mut unlogged = Node::boot_unlogged(alloc, NodeNo(1), RowId(5));
    assert!(rt; forgets_one(&mut unlogged, false, alloc, &book, &mut steps));
    Ok(())
}

#[test]
fn turns_bring_nothing_for_forgotten_ones(rt: HostRuntime) -> Result<(), Fail> {
    run_forgetting::<Brand>(&rt, rt.alloc(), Blank::new(1))
}
