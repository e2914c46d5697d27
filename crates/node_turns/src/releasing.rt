ghost use Rattle.std.specs.Prelude.{◌≡◌, [], ◌∷◌, map, filter, flat_map};
ghost use Rattle.cable_model.specs.Connection.{among};
ghost use Rattle.conn_core.specs.Subscriptions.{shown};
ghost use Rattle.node_turns.specs.Holding.{named, named_in, named_stops, when_named, released, without_all};

use cable_base::{ConnNo, Name, WantNo};
use cable_model::Change;
use conn_core::{Sub, among};
use conn_seat::Seat;
use stream_set::StreamEntry;
use subscriber_map::SubscriberMap;

/// Ends the hold of the stream, where it stops.
fn release_stop(holders: &mut SubscriberMap, conn: ConnNo, stream: &StreamEntry, stops: &[Name])
    ensures { holders.new ≡ without_all conn.0 (map named (filter (λ e. among stops.now e.name) (stream.now ∷ []))) holders.old }
{
    if among(stops, stream.name.as_str()) {
        holders.remove(stream.name.as_str(), conn, stream.want);
    }
}

/// Ends the holds of those of the streams that stop.
fn release_stops(holders: &mut SubscriberMap, conn: ConnNo, streams: &[StreamEntry], stops: &[Name])
    ensures { holders.new ≡ without_all conn.0 (map named (filter (λ e. among stops.now e.name) streams.now)) holders.old }
{
    for stream in streams {
        release_stop(holders, conn, stream, stops);
    }
}

/// Ends the holds of the streams.
fn release_streams(holders: &mut SubscriberMap, conn: ConnNo, streams: &[StreamEntry])
    ensures { holders.new ≡ without_all conn.0 (map named streams.now) holders.old }
{
    for stream in streams {
        holders.remove(stream.name.as_str(), conn, stream.want);
    }
}

/// Ends the holds of those of the subscription's streams that stop, where it has this identifier.
fn release_stopped(
    holders: &mut SubscriberMap,
    conn: ConnNo,
    sub: &Sub,
    identifier: &str,
    stops: &[Name],
)
    ensures { holders.new ≡ without_all conn.0 (when_named identifier.now (named_stops stops.now) (shown sub.now)) holders.old }
{
    if sub.identifier() == identifier {
        release_stops(holders, conn, sub.streams().entries(), stops);
    }
}

/// Ends the holds of those of its streams that stop, of the subscription with this identifier.
fn release_all_stopped(
    holders: &mut SubscriberMap,
    conn: ConnNo,
    subs: &[Sub],
    identifier: &str,
    stops: &[Name],
)
    ensures { holders.new ≡ without_all conn.0 (flat_map (when_named identifier.now (named_stops stops.now)) (map shown subs.now)) holders.old }
{
    for sub in subs {
        release_stopped(holders, conn, sub, identifier, stops);
    }
}

/// Ends the holds of the subscription, where it has this identifier.
fn release_removed(holders: &mut SubscriberMap, conn: ConnNo, sub: &Sub, identifier: &str)
    ensures { holders.new ≡ without_all conn.0 (when_named identifier.now named_in (shown sub.now)) holders.old }
{
    if sub.identifier() == identifier {
        release_streams(holders, conn, sub.streams().entries());
    }
}

/// Ends the holds of the subscription with this identifier.
fn release_all_removed(holders: &mut SubscriberMap, conn: ConnNo, subs: &[Sub], identifier: &str)
    ensures { holders.new ≡ without_all conn.0 (flat_map (when_named identifier.now named_in) (map shown subs.now)) holders.old }
{
    for sub in subs {
        release_removed(holders, conn, sub, identifier);
    }
}

/// Ends the holds of the subscriptions.
fn release_subs(holders: &mut SubscriberMap, conn: ConnNo, subs: &[Sub])
    ensures { holders.new ≡ without_all conn.0 (flat_map named_in (map shown subs.now)) holders.old }
{
    for sub in subs {
        release_streams(holders, conn, sub.streams().entries());
    }
}

/// Ends the holds of the connection whose wants a change ends. It takes no memory.
pub fn release(holders: &mut SubscriberMap, conn: ConnNo, seat: &Seat, change: &Change)
    ensures { holders.new ≡ released conn.0 change.now seat.now.user seat.now.subs holders.old }
{
    match change {
        Change::Nothing => {}
        Change::Add { .. } => {}
        Change::Streams {
            identifier,
            stops,
            ..
        } => release_all_stopped(
            holders,
            conn,
            seat.subs(),
            identifier.as_str(),
            stops.as_slice(),
        ),
        Change::Remove { identifier } => {
            release_all_removed(holders, conn, seat.subs(), identifier.as_str())
        }
        Change::Close => {
            holders.remove(seat.own().as_str(), conn, WantNo(0));
            release_subs(holders, conn, seat.subs());
        }
    }
}
