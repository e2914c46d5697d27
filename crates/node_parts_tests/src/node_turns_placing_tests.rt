ghost use Rattle.std.specs.Prelude.{◌≡◌, ◌≢◌, IfOk};

use crate::hold_fixtures::hold;
use crate::seat_fixtures::{opens_ann, subscribed};
use cable_base::{ConnNo, Name, OutOfMemory, RowId, SubNo, WantNo};
use cable_fixtures::ANN;
use node_seats::{Seats, Wanted};
use node_turns::{Placing, hold_all, placings};
use std::alloc::Global;
use std::test::Fail;
use subscriber_map::{Hold, SubscriberMap};

const BEN: ConnNo = ConnNo(5);

const OWN: &str = "action_cable/ann";

fn wanted(conn: ConnNo, sub: u64, want: u64) -> Wanted {
    Wanted {
        conn,
        sub: SubNo(sub),
        want: WantNo(want),
        confirms: false,
    }
}

/// Whether the placing is a hold of this name for this want of ann's connection, with the mark 9.
fn is_anns(placing: &Placing, name: &str, sub: u64, want: u64) -> bool {
    placing.name.as_str() == name && placing.hold == hold(ANN.0, sub, want, 9)
}

/// Whether this is all that is placed: ann's own name.
fn is_own(placings: &[Placing]) -> bool {
    match placings {
        [own] => is_anns(own, OWN, 0, 0),
        _ => false,
    }
}

/// Of a connection without subscriptions the own name alone is placed, and nothing of a connection that isn't live.
#[test]
fn places_what_stands(rt: HostRuntime) -> Result<(), Fail> {
    let alloc = rt.alloc();
    let mut seats = Seats::empty(alloc);
    assert!(rt; opens_ann(&mut seats, alloc)?);
    let wants = [wanted(ANN, 0, 0), wanted(BEN, 0, 0), wanted(ANN, 2, 1)];
    let placings = placings(alloc, &wants, &seats, RowId(9))?;
    assert!(rt; is_own(&placings));
    Ok(())
}

/// Whether these are ann's own name and the streams of the subscription.
fn are_named(placings: &[Placing]) -> bool {
    match placings {
        [a, own, b] => { is_anns(a, "a", 1, 1) && is_anns(own, OWN, 0, 0) && is_anns(b, "b", 1, 2) }
        _ => false,
    }
}

/// A want stands for the stream that it was made for. Nothing is placed for a want or a subscription that doesn't stand.
#[test]
fn names_the_streams_of_wants(rt: HostRuntime) -> Result<(), Fail> {
    let alloc = rt.alloc();
    let seats = subscribed(alloc)?;
    let wants = [
        wanted(ANN, 1, 1),
        wanted(ANN, 0, 0),
        wanted(ANN, 1, 3),
        wanted(ANN, 2, 1),
        wanted(ANN, 1, 2),
    ];
    let placings = placings(alloc, &wants, &seats, RowId(9))?;
    assert!(rt; are_named(&placings));
    Ok(())
}

fn placing(alloc: Global, name: &str, conn: u64) -> Result<Placing, OutOfMemory>
    ensures { IfOk result (λ p. p.hold.conn.0 ≡ conn) }
{
    Ok(Placing {
        name: Name::new(alloc, name)?,
        hold: Hold {
            conn: ConnNo(conn),
            sub: SubNo(2),
            want: WantNo(1),
            mark: RowId(9),
        },
    })
}

/// Two holds, of different connections, in a map that has no others.
fn hold_two(alloc: Global, first: Placing, second: Placing) -> Result<SubscriberMap, OutOfMemory>
    requires { first.hold.conn.0 ≢ second.hold.conn.0 }
{
    let mut holders = SubscriberMap::empty(alloc);
    hold_all(&mut holders, &[first, second])?;
    Ok(holders)
}

/// Each of the names has its hold.
fn removes_each(holders: &mut SubscriberMap) -> bool {
    holders.remove("b", ConnNo(7), WantNo(1))
        && !holders.remove("a", ConnNo(7), WantNo(1))
        && holders.remove("a", ConnNo(3), WantNo(1))
}

#[test]
fn holds_each_name(rt: HostRuntime) -> Result<(), Fail> {
    let alloc = rt.alloc();
    let first = placing(alloc, "b", 7)?;
    let second = placing(alloc, "a", 3)?;
    let mut holders = hold_two(alloc, first, second)?;
    assert_eq!(rt; holders.names(alloc)?.as_slice().len(), 2);
    assert!(rt; removes_each(&mut holders));
    Ok(())
}
