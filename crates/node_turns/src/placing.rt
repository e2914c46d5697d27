ghost use Rattle.std.specs.Prelude.{◌≡◌, ◌++◌, IfOk, OnOk, OnErr, Some, map};
ghost use Rattle.conn_core.specs.Subscriptions.{shown};
ghost use Rattle.node_seats.specs.Numbers.{seat_at};
ghost use Rattle.subscriber_map.specs.HoldMaps.{HoldMap};
ghost use Rattle.node_turns.specs.Holding.{AreNew, AreUndone, name_among, name_wanted, name_in, placing_as, placings_of, with_placings};

use cable_base::{Name, OutOfMemory, RowId, WantNo};
use conn_core::{Sub, sub_numbered};
use conn_seat::Seat;
use node_seats::{Seats, Wanted};
use std::alloc::Global;
use stream_set::StreamEntry;
use subscriber_map::{Hold, SubscriberMap};

/// A hold that a turn places, under its name.
#[derive(Debug, Drop)]
pub struct Placing {
    pub name: Name,
    pub hold: Hold,
}

/// The name of the stream that was wanted under this number.
fn name_among(
    alloc: Global,
    streams: &[StreamEntry],
    want: WantNo,
) -> Result<Option<Name>, OutOfMemory>
    ensures { IfOk result (λ name. name ≡ name_among want streams.now) }
{
    for stream in streams {
        if stream.want == want {
            return Ok(Some(stream.name.copy(alloc)?));
        }
    }
    Ok(None)
}

/// The name of the want of a subscription.
#[tactic(auto, using(crate::proofs::PlacingSteps::wanted_in))]
fn name_wanted(alloc: Global, subs: &[Sub], wanted: &Wanted) -> Result<Option<Name>, OutOfMemory>
    ensures { IfOk result (λ name. name ≡ name_wanted wanted.now (map shown subs.now)) }
{
    let Some(sub) = sub_numbered(subs, wanted.sub) else {
        return Ok(None);
    };
    name_among(alloc, sub.streams().entries(), wanted.want)
}

/// The name that the want of a connection stands for: the connection's own, or one of a stream.
pub(crate) fn name_in(
    alloc: Global,
    wanted: &Wanted,
    seat: &Seat,
) -> Result<Option<Name>, OutOfMemory>
    ensures { IfOk result (λ name. name ≡ name_in wanted.now (Some seat.now)) }
{
    if wanted.sub.0 == 0 {
        return Ok(Some(seat.own().copy(alloc)?));
    }
    name_wanted(alloc, seat.subs(), wanted)
}

/// Adds the hold that the want becomes, where it stands.
fn add_placing(
    placings: &mut Vec<Placing>,
    alloc: Global,
    wanted: &Wanted,
    seats: &Seats,
    mark: RowId,
) -> Result<(), OutOfMemory>
    ensures { OnOk result (placings.new.items
        ≡ placings.old.items ++ placing_as mark wanted.now (name_in wanted.now (seat_at wanted.now.conn.0 seats.now.entries))) }
{
    let Some(seat) = seats.get(wanted.conn) else {
        return Ok(());
    };
    let Some(name) = name_in(alloc, wanted, seat)? else {
        return Ok(());
    };
    placings.push(Placing {
        name,
        hold: Hold {
            conn: wanted.conn,
            sub: wanted.sub,
            want: wanted.want,
            mark,
        },
    })?;
    Ok(())
}

/// The holds that these wants become with this mark: of each that stands on a live connection.
pub fn placings(
    alloc: Global,
    wants: &[Wanted],
    seats: &Seats,
    mark: RowId,
) -> Result<Vec<Placing>, OutOfMemory>
    ensures { IfOk result (λ ps. ps.items ≡ placings_of seats.now.entries mark wants.now) }
{
    let mut placings = Vec::new(alloc);
    for wanted in wants {
        add_placing(&mut placings, alloc, wanted, seats, mark)?;
    }
    Ok(placings)
}

/// Takes these holds away again, the last one first. It takes no memory.
fn take_back(holders: &mut SubscriberMap, placings: &[Placing])
    ensures { (m : HoldMap) → AreUndone placings.now m → holders.old ≡ with_placings placings.now m → holders.new ≡ m }
{
    let mut left = placings.len();
    while left > 0 {
        left -= 1;
        let placing = &placings[left];
        holders.remove(placing.name.as_str(), placing.hold.conn, placing.hold.want);
    }
}

/// Adds these holds. Where one of them is refused for want of memory, those before it are taken away again.
pub fn hold_all(holders: &mut SubscriberMap, placings: &[Placing]) -> Result<(), OutOfMemory>
    requires new { AreNew placings.now holders.old }
    ensures ok { OnOk result (holders.new ≡ with_placings placings.now holders.old) }
    ensures err { OnErr result (holders.new ≡ holders.old) }
{
    for i in 0..placings.len() {
        let placing = &placings[i];
        if let Err(refused) = holders.add(placing.name.as_str(), placing.hold) {
            take_back(holders, &placings[..i]);
            return Err(refused);
        }
    }
    Ok(())
}
