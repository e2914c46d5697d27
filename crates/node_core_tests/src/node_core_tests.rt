use crate::node_core_acts::{Act, first_fault};
use cable_base::{ConnNo, NodeNo, RowId};
use cable_fixtures::{ANN, CLUB};
use cable_model::Note;
use channel_book::Book;
use node_core::{ArriveFault, Node, OpenFault};
use std::alloc::Global;
use std::test::Fail;

const WELCOME: &str = r#"{"type":"welcome"}"#;

const UNAUTHORIZED: &str = r#"{"type":"disconnect","reason":"unauthorized","reconnect":false}"#;

const RESTART: &str = r#"{"type":"disconnect","reason":"server_restart","reconnect":true}"#;

const PING: &str = r#"{"type":"ping","message":5}"#;

const NOBODY: ConnNo = ConnNo(2);

const BEN: ConnNo = ConnNo(5);

/// Nobody is there.
const ALONE: [Act; 6] = [
    Act::Beats(5_000),
    Act::Stops,
    Act::Goes(ANN, false),
    Act::CannotHear(ANN, ArriveFault::Unknown),
    Act::IsSilent(ANN),
    Act::Logs(RowId(7), 3),
];

/// One connection is welcomed and pinged, and one has a token of nobody.
const GREETS: [Act; 12] = [
    Act::Opens(ANN, "t1"),
    Act::Opens(NOBODY, "t2"),
    Act::CannotOpen(ANN, OpenFault::Used),
    Act::CannotOpen(NOBODY, OpenFault::Used),
    Act::IsOver(ANN, false),
    Act::IsOver(NOBODY, true),
    Act::Says(ANN, WELCOME),
    Act::Says(NOBODY, UNAUTHORIZED),
    Act::Receives(ANN),
    Act::Beats(5_999),
    Act::Says(ANN, PING),
    Act::IsSilent(NOBODY),
];

/// A stop closes each connection.
const STOPS: [Act; 9] = [
    Act::Opens(ANN, "t1"),
    Act::Says(ANN, WELCOME),
    Act::Stops,
    Act::Goes(ANN, false),
    Act::CannotHear(ANN, ArriveFault::Shut),
    Act::Works(ANN),
    Act::Says(ANN, RESTART),
    Act::IsOver(ANN, true),
    Act::CannotHear(ANN, ArriveFault::Unknown),
];

/// What is over is forgotten once all that was queued on it was taken out, and the log has none of its entries. Its number stays used.
const FORGETS: [Act; 13] = [
    Act::Opens(ANN, "t1"),
    Act::Opens(NOBODY, "t2"),
    Act::Forgets(NOBODY, false),
    Act::Says(NOBODY, UNAUTHORIZED),
    Act::Says(ANN, WELCOME),
    Act::Forgets(ANN, false),
    Act::Logs(RowId(7), 3),
    Act::Forgets(NOBODY, true),
    Act::Logs(RowId(7), 2),
    Act::Forgets(NOBODY, false),
    Act::CannotOpen(NOBODY, OpenFault::Used),
    Act::IsOver(NOBODY, true),
    Act::IsSilent(NOBODY),
];

/// The log begins again once each of its connections was forgotten.
const BEGINS_AGAIN: [Act; 17] = [
    Act::Opens(ANN, "t1"),
    Act::Opens(NOBODY, "t2"),
    Act::Says(NOBODY, UNAUTHORIZED),
    Act::Forgets(NOBODY, true),
    Act::Resets(false),
    Act::Says(ANN, WELCOME),
    Act::Goes(ANN, true),
    Act::Beats(5_000),
    Act::Works(ANN),
    Act::Logs(RowId(7), 6),
    Act::Forgets(ANN, true),
    Act::Logs(RowId(7), 2),
    Act::Resets(true),
    Act::Logs(RowId(7), 1),
    Act::CannotOpen(ANN, OpenFault::Used),
    Act::Opens(BEN, "t1"),
    Act::Logs(RowId(7), 2),
];

/// Those that wait are taken in the order in which they became ready.
const SERVES: [Act; 11] = [
    Act::Opens(ANN, "t1"),
    Act::Opens(BEN, "t1"),
    Act::IsReady(None),
    Act::Hears(BEN, "{}"),
    Act::Hears(ANN, "{}"),
    Act::Hears(BEN, "{}"),
    Act::IsReady(Some(BEN)),
    Act::Takes(BEN),
    Act::IsReady(Some(ANN)),
    Act::Takes(ANN),
    Act::IsIdle,
];

/// The piece that waits behind the one that is worked comes behind those of the others.
const TAKES_TURNS: [Act; 9] = [
    Act::Opens(ANN, "t1"),
    Act::Opens(BEN, "t1"),
    Act::Hears(ANN, "{}"),
    Act::Hears(ANN, "{}"),
    Act::Hears(BEN, "{}"),
    Act::Works(ANN),
    Act::Works(BEN),
    Act::Works(ANN),
    Act::IsIdle,
];

/// While a text is worked, the one behind it waits.
const WAITS: [Act; 6] = [
    Act::Opens(ANN, "t1"),
    Act::HasNone(ANN),
    Act::Hears(ANN, "{"),
    Act::Hears(ANN, "{"),
    Act::Plans(ANN),
    Act::HasNone(ANN),
];

/// A text that isn't JSON gives its one note.
const NOTES: [Act; 6] = [
    Act::Opens(ANN, "t1"),
    Act::Says(ANN, WELCOME),
    Act::Hears(ANN, "{"),
    Act::Works(ANN),
    Act::Notes(ANN, Note::BadJson),
    Act::IsSilent(ANN),
];

/// Texts that are too long, too many, or behind the client's leaving.
const REFUSES: [Act; 8] = [
    Act::Opens(ANN, "t1"),
    Act::CannotHearLong(ANN, ArriveFault::TooLong),
    Act::HearsAll(ANN),
    Act::CannotHear(ANN, ArriveFault::Busy),
    Act::Goes(ANN, true),
    Act::CannotHearLong(ANN, ArriveFault::Shut),
    Act::Goes(ANN, false),
    Act::Logs(RowId(7), 259),
];

const IS_FULL: [Act; 3] = [
    Act::OpensAll,
    Act::CannotOpen(ConnNo(999), OpenFault::Used),
    Act::CannotOpen(ConnNo(1_000), OpenFault::Full),
];

/// The place of the first call that answers something else, on a node that was booted behind the row 7: on one that stores its log, and on
/// one that doesn't.
fn fault_in(alloc: Global, acts: &[Act]) -> Result<Option<usize>, Fail> {
    let book = Book::read(alloc, CLUB)?;
    let mut node = Node::boot(alloc, NodeNo(1), RowId(7))?;
    let mut unlogged = Node::boot_unlogged(alloc, NodeNo(1), RowId(7));
    let fault = first_fault(&mut node, true, alloc, &book, acts);
    Ok(fault.or(first_fault(&mut unlogged, false, alloc, &book, acts)))
}

#[test]
fn boots(rt: HostRuntime) -> Result<(), Fail> {
    assert_eq!(rt; fault_in(rt.alloc(), &ALONE)?, None);
    Ok(())
}

#[test]
fn greets(rt: HostRuntime) -> Result<(), Fail> {
    assert_eq!(rt; fault_in(rt.alloc(), &GREETS)?, None);
    Ok(())
}

#[test]
fn stops(rt: HostRuntime) -> Result<(), Fail> {
    assert_eq!(rt; fault_in(rt.alloc(), &STOPS)?, None);
    Ok(())
}

#[test]
fn works_a_text(rt: HostRuntime) -> Result<(), Fail> {
    assert_eq!(rt; fault_in(rt.alloc(), &WAITS)?, None);
    assert_eq!(rt; fault_in(rt.alloc(), &NOTES)?, None);
    Ok(())
}

#[test]
fn refuses_texts(rt: HostRuntime) -> Result<(), Fail> {
    assert_eq!(rt; fault_in(rt.alloc(), &REFUSES)?, None);
    Ok(())
}

#[test]
fn forgets_one(rt: HostRuntime) -> Result<(), Fail> {
    assert_eq!(rt; fault_in(rt.alloc(), &FORGETS)?, None);
    Ok(())
}

#[test]
fn begins_again(rt: HostRuntime) -> Result<(), Fail> {
    assert_eq!(rt; fault_in(rt.alloc(), &BEGINS_AGAIN)?, None);
    Ok(())
}

#[test]
fn is_full(rt: HostRuntime) -> Result<(), Fail> {
    assert_eq!(rt; fault_in(rt.alloc(), &IS_FULL)?, None);
    Ok(())
}

#[test]
fn serves_in_order(rt: HostRuntime) -> Result<(), Fail> {
    assert_eq!(rt; fault_in(rt.alloc(), &SERVES)?, None);
    Ok(())
}

#[test]
fn works_in_turns(rt: HostRuntime) -> Result<(), Fail> {
    assert_eq!(rt; fault_in(rt.alloc(), &TAKES_TURNS)?, None);
    Ok(())
}
