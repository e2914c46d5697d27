ghost use Rattle.std.specs.Prelude.{◌≡◌, ◌∷◌, [], IfOk, map};
ghost use Rattle.node_seats.specs.declared.queues.Queued.{Queued};

use crate::seat_fixtures::{finishes, greets, refuses};
use cable_base::{ConnNo, OutOfMemory, Text};
use cable_fixtures::{faulty, quiet_plan};
use cable_model::Change;
use conn_seat::Out;
use node_seats::{Queued, Seats};
use std::alloc::Global;
use std::test::Fail;

const ANN: ConnNo = ConnNo(7);

const BEN: ConnNo = ConnNo(3);

const CAT: ConnNo = ConnNo(9);

/// A number that isn't opened.
const NOBODY: ConnNo = ConnNo(5);

/// A call of the connections of a node, with what it has to answer.
#[derive(Clone, Copy)]
enum Act {
    /// Opens a connection, and greets it with this text.
    Opens(ConnNo, &'static str),
    /// Keeps the number as one that is over, and queues this text on it.
    Refuses(ConnNo, &'static str),
    /// Queues this text on both connections at once.
    Says(ConnNo, ConnNo, &'static str),
    /// Works a piece of the connection, which says this text and changes nothing.
    Works(ConnNo, &'static str),
    /// Works a piece of the connection, which says this text and ends it.
    Ends(ConnNo, &'static str),
    /// There are no numbers left for as many texts as a `u64` counts.
    CannotPlan(ConnNo),
    /// This text was queued first, and is taken out.
    Hears(ConnNo, &'static str),
    /// Nothing is queued on the connection, and nothing is taken out.
    IsSilent(ConnNo),
    IsOver(ConnNo, bool),
    /// Forgets the connection, where it is over and nothing is queued on it.
    Forgets(ConnNo, bool),
    IsForgotten(ConnNo, bool),
    /// Puts the piece of a stop on each live connection.
    Stops,
    /// Just these are live and not closing, in this order.
    Lists(&'static [ConnNo]),
}

fn text(alloc: Global, text: &str) -> Result<Out, OutOfMemory> {
    Ok(Out::Text(Text::new(alloc, text)?))
}

/// The text, for each of two connections.
fn for_both(
    alloc: Global,
    first: ConnNo,
    second: ConnNo,
    said: &str,
) -> Result<Vec<Queued>, OutOfMemory>
    ensures { IfOk result (λ qs. map (λ (q : Queued). q.conn) qs.items ≡ first ∷ second ∷ []) }
{
    let mut both = Vec::new(alloc);
    both.push(Queued {
        conn: first,
        out: text(alloc, said)?,
    })?;
    both.push(Queued {
        conn: second,
        out: text(alloc, said)?,
    })?;
    Ok(both)
}

/// Queues a text on two connections that were opened.
fn says(
    seats: &mut Seats,
    alloc: Global,
    first: ConnNo,
    second: ConnNo,
    said: &str,
) -> Result<bool, OutOfMemory> {
    if first == second || !seats.is_used(first) || !seats.is_used(second) {
        return Ok(false);
    }
    let both = for_both(alloc, first, second, said)?;
    seats.reserve_each(&[first, second])?;
    seats.queue_all(both);
    Ok(true)
}

/// Puts a piece on the connection, and takes it.
fn takes(seats: &mut Seats, conn: ConnNo) -> Result<bool, OutOfMemory> {
    if seats.get(conn).is_none() {
        return Ok(false);
    }
    seats.put(conn, faulty())?;
    Ok(seats.take(conn)?.is_some())
}

/// Works a piece of the connection, which says this text.
fn works(seats: &mut Seats, alloc: Global, conn: ConnNo, said: &str) -> Result<bool, OutOfMemory> {
    let plan = quiet_plan(alloc, Change::Nothing);
    let outs = vec![in alloc; text(alloc, said)?]?;
    Ok(takes(seats, conn)? && finishes(seats, conn, &plan, outs)?)
}

/// Works a piece of the connection, which says this text and ends it.
fn ends(seats: &mut Seats, alloc: Global, conn: ConnNo, said: &str) -> Result<bool, OutOfMemory> {
    let plan = quiet_plan(alloc, Change::Close);
    let outs = vec![in alloc; text(alloc, said)?]?;
    Ok(takes(seats, conn)? && finishes(seats, conn, &plan, outs)?)
}

fn cannot_plan(seats: &mut Seats, alloc: Global, conn: ConnNo) -> bool {
    let plan = quiet_plan(alloc, Change::Nothing);
    seats.get(conn).is_some() && seats.reserve_plan(conn, &plan, u64::MAX).is_err()
}

fn hears(seats: &mut Seats, conn: ConnNo, text: &str) -> bool {
    match seats.take_out(conn) {
        Some(Out::Text(said)) => said.as_str() == text,
        Some(Out::Note(_)) | None => false,
    }
}

fn forgets(seats: &mut Seats, conn: ConnNo) -> bool {
    if !seats.is_over(conn) || !seats.is_drained(conn) {
        return false;
    }
    seats.forget(conn);
    true
}

fn stops(seats: &mut Seats) -> bool {
    seats.stop();
    true
}

fn lists(seats: &Seats, alloc: Global, conns: &[ConnNo]) -> Result<bool, OutOfMemory> {
    Ok(seats.receiving(alloc)?.as_slice() == conns)
}

/// Makes a call, and tells whether it answers what it has to.
fn does(seats: &mut Seats, alloc: Global, act: Act) -> Result<bool, OutOfMemory> {
    match act {
        Act::Opens(conn, said) => Ok(greets(seats, conn, "ann", text(alloc, said)?)),
        Act::Refuses(conn, said) => Ok(refuses(seats, conn, text(alloc, said)?)),
        Act::Says(first, second, said) => says(seats, alloc, first, second, said),
        Act::Works(conn, said) => works(seats, alloc, conn, said),
        Act::Ends(conn, said) => ends(seats, alloc, conn, said),
        Act::CannotPlan(conn) => Ok(cannot_plan(seats, alloc, conn)),
        Act::Hears(conn, said) => Ok(hears(seats, conn, said)),
        Act::IsSilent(conn) => Ok(seats.is_drained(conn) && seats.take_out(conn).is_none()),
        Act::IsOver(conn, is_so) => Ok(seats.is_over(conn) == is_so),
        Act::Forgets(conn, done) => Ok(forgets(seats, conn) == done),
        Act::IsForgotten(conn, is_so) => Ok(seats.is_forgotten(conn) == is_so),
        Act::Stops => Ok(stops(seats)),
        Act::Lists(conns) => lists(seats, alloc, conns),
    }
}

/// The place of the first call that answers something else, where no number was opened before.
fn first_fault(alloc: Global, acts: &[Act]) -> Result<Option<usize>, OutOfMemory> {
    let mut seats = Seats::empty(alloc);
    for (place, act) in acts.iter().enumerate() {
        if !does(&mut seats, alloc, *act)? {
            return Ok(Some(place));
        }
    }
    Ok(None)
}

/// What a connection is told first is its greeting, also where it is over at once.
#[test]
fn greets_first(rt: HostRuntime) -> Result<(), Fail> {
    let acts = [
        Act::Opens(ANN, "hello"),
        Act::Refuses(BEN, "no"),
        Act::IsOver(ANN, false),
        Act::IsOver(BEN, true),
        Act::Hears(BEN, "no"),
        Act::Hears(ANN, "hello"),
        Act::IsSilent(ANN),
        Act::IsSilent(BEN),
        Act::IsSilent(NOBODY),
    ];
    assert_eq!(rt; first_fault(rt.alloc(), acts.as_slice())?, None);
    Ok(())
}

/// What is queued on one connection stands beside what is queued on the other.
#[test]
fn queues_on_both(rt: HostRuntime) -> Result<(), Fail> {
    let acts = [
        Act::Opens(ANN, "hello"),
        Act::Refuses(BEN, "no"),
        Act::Says(ANN, BEN, "one"),
        Act::Says(BEN, ANN, "two"),
        Act::Hears(ANN, "hello"),
        Act::Hears(ANN, "one"),
        Act::Hears(BEN, "no"),
        Act::Hears(ANN, "two"),
        Act::IsSilent(ANN),
        Act::Hears(BEN, "one"),
        Act::Hears(BEN, "two"),
        Act::IsSilent(BEN),
    ];
    assert_eq!(rt; first_fault(rt.alloc(), acts.as_slice())?, None);
    Ok(())
}

/// What the plan of the last piece says is queued behind the rest, and can be taken out once the connection is over.
#[test]
fn keeps_what_is_queued_at_the_end(rt: HostRuntime) -> Result<(), Fail> {
    let acts = [
        Act::Opens(ANN, "hello"),
        Act::Works(ANN, "one"),
        Act::IsOver(ANN, false),
        Act::Ends(ANN, "bye"),
        Act::IsOver(ANN, true),
        Act::Hears(ANN, "hello"),
        Act::Hears(ANN, "one"),
        Act::Hears(ANN, "bye"),
        Act::IsSilent(ANN),
    ];
    assert_eq!(rt; first_fault(rt.alloc(), acts.as_slice())?, None);
    Ok(())
}

/// One was taken out, so that so many more would pass the end of a `u64`. Nothing is changed by it.
#[test]
fn makes_no_endless_room(rt: HostRuntime) -> Result<(), Fail> {
    let acts = [
        Act::Opens(ANN, "hello"),
        Act::Hears(ANN, "hello"),
        Act::CannotPlan(ANN),
        Act::Works(ANN, "one"),
        Act::Hears(ANN, "one"),
        Act::IsSilent(ANN),
    ];
    assert_eq!(rt; first_fault(rt.alloc(), acts.as_slice())?, None);
    Ok(())
}

#[test]
fn forgets_one_of_two(rt: HostRuntime) -> Result<(), Fail> {
    let acts = [
        Act::Opens(ANN, "hello"),
        Act::Refuses(BEN, "no"),
        Act::Forgets(BEN, false),
        Act::IsForgotten(BEN, false),
        Act::Hears(BEN, "no"),
        Act::Forgets(BEN, true),
        Act::IsForgotten(BEN, true),
        Act::IsOver(BEN, true),
        Act::IsSilent(BEN),
        Act::Forgets(ANN, false),
        Act::IsForgotten(ANN, false),
        Act::IsForgotten(NOBODY, false),
        Act::Hears(ANN, "hello"),
    ];
    assert_eq!(rt; first_fault(rt.alloc(), acts.as_slice())?, None);
    Ok(())
}

/// What is queued on a connection that was forgotten is taken out as on any other, and it stays forgotten.
#[test]
fn stays_forgotten(rt: HostRuntime) -> Result<(), Fail> {
    let acts = [
        Act::Opens(ANN, "hello"),
        Act::Refuses(BEN, "no"),
        Act::Hears(BEN, "no"),
        Act::Forgets(BEN, true),
        Act::Forgets(BEN, true),
        Act::Says(ANN, BEN, "late"),
        Act::IsForgotten(BEN, true),
        Act::Forgets(BEN, false),
        Act::Hears(BEN, "late"),
        Act::IsSilent(BEN),
        Act::Forgets(BEN, true),
        Act::IsForgotten(BEN, true),
        Act::IsOver(BEN, true),
        Act::Hears(ANN, "hello"),
        Act::Hears(ANN, "late"),
    ];
    assert_eq!(rt; first_fault(rt.alloc(), acts.as_slice())?, None);
    Ok(())
}

/// A connection is listed by its number from its opening to its end, whatever was opened and ended meanwhile.
#[test]
fn lists_the_live_ones(rt: HostRuntime) -> Result<(), Fail> {
    let acts = [
        Act::Lists(&[]),
        Act::Opens(ANN, "hello"),
        Act::Opens(BEN, "hello"),
        Act::Lists(&[BEN, ANN]),
        Act::Ends(ANN, "bye"),
        Act::Lists(&[BEN]),
        Act::Refuses(ConnNo(4), "no"),
        Act::Opens(CAT, "hello"),
        Act::Lists(&[BEN, CAT]),
        Act::Ends(BEN, "bye"),
        Act::Lists(&[CAT]),
        Act::Stops,
        Act::Lists(&[]),
        Act::IsOver(CAT, false),
        Act::IsOver(ANN, true),
    ];
    assert_eq!(rt; first_fault(rt.alloc(), acts.as_slice())?, None);
    Ok(())
}
