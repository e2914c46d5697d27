ghost use Rattle.std.specs.Prelude.{◌≡◌, ◌<◌};

use crate::hold_fixtures::{add, hold};
use crate::seat_fixtures::subscribed;
use cable_base::{ConnNo, OutOfMemory, Steps, Text};
use cable_fixtures::{ANN, IDENTIFIER, names};
use cable_model::Change;
use conn_seat::Seat;
use node_turns::release;
use std::alloc::Global;
use std::marker::Brand;
use std::process::Abort;
use std::sync::ledger::{Blank, Ledger};
use std::test::Fail;
use subscriber_map::SubscriberMap;

const OWN: &str = "action_cable/ann";

/// The stream `a` of two connections, and their own.
fn hold_each<L: Ledger>(map: &mut SubscriberMap, steps: &mut Steps<L>) -> bool {
    add(map, steps, "a", hold(1, 1, 1, 5))
        && add(map, steps, OWN, hold(1, 0, 0, 5))
        && add(map, steps, "a", hold(2, 1, 1, 5))
        && add(map, steps, OWN, hold(2, 0, 0, 5))
}

/// How many connections hold a, and how many the own name of ann.
fn counts<L: Ledger>(map: &SubscriberMap, steps: &mut Steps<L>) -> [usize; 2] {
    [map.holders("a", steps).len(), map.holders(OWN, steps).len()]
}

/// Whether so many are left of these when the change ends holds of the first connection.
fn leaves<L: Ledger>(
    alloc: Global,
    steps: &mut Steps<L>,
    seat: &Seat,
    change: &Change,
    left: [usize; 2],
) -> bool {
    let mut map = SubscriberMap::empty(alloc);
    let held = hold_each(&mut map, steps);
    release(&mut map, ConnNo(1), seat, change);
    held && counts(&map, steps) == left
}

/// A change of the subscription with this identifier, of which this stream stops.
fn stop(alloc: Global, identifier: &str, name: &str) -> Result<Change, OutOfMemory> {
    Ok(Change::Streams {
        identifier: Text::new(alloc, identifier)?,
        stops: names(alloc, &[name])?,
        streams: names(alloc, &["c"])?,
    })
}

fn remove(alloc: Global, identifier: &str) -> Result<Change, OutOfMemory> {
    Ok(Change::Remove {
        identifier: Text::new(alloc, identifier)?,
    })
}

/// The stream `a` is held, `b` isn't, and `d` isn't one of the subscription's.
fn stops<L: Ledger>(alloc: Global, steps: &mut Steps<L>, seat: &Seat) -> Result<bool, OutOfMemory> {
    let of_a = leaves(alloc, steps, seat, &stop(alloc, IDENTIFIER, "a")?, [1, 2]);
    let of_b = leaves(alloc, steps, seat, &stop(alloc, IDENTIFIER, "b")?, [2, 2]);
    let of_d = leaves(alloc, steps, seat, &stop(alloc, IDENTIFIER, "d")?, [2, 2]);
    let of_other = leaves(alloc, steps, seat, &stop(alloc, "other", "a")?, [2, 2]);
    Ok(of_a && of_b && of_d && of_other)
}

fn removes<L: Ledger>(
    alloc: Global,
    steps: &mut Steps<L>,
    seat: &Seat,
) -> Result<bool, OutOfMemory> {
    let of_club = leaves(alloc, steps, seat, &remove(alloc, IDENTIFIER)?, [1, 2]);
    let of_other = leaves(alloc, steps, seat, &remove(alloc, "other")?, [2, 2]);
    let of_all = leaves(alloc, steps, seat, &Change::Close, [1, 1]);
    Ok(of_club && of_other && of_all)
}

fn run<L: Ledger>(rt: &impl Abort, alloc: Global, blank: Blank) -> Result<(), Fail>
    requires name { blank.name ≡ L.name }
    requires parts { blank.parts ≡ L.parts }
    requires some { 0 < blank.parts }
{
    let mut steps = Steps::<L>::begin(blank);
    let seats = subscribed(alloc)?;
    let Some(seat) = seats.get(ANN) else {
        return Err(Fail::from("it isn't live"));
    };
    assert!(rt; stops(alloc, &mut steps, seat)?);
    assert!(rt; removes(alloc, &mut steps, seat)?);
    Ok(())
}

#[test]
fn releases_what_a_change_ends(rt: HostRuntime) -> Result<(), Fail> {
    run::<Brand>(&rt, rt.alloc(), Blank::new(1))
}
