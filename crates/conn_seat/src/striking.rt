ghost use Rattle.std.specs.Prelude.{◌≡◌, not, map};
ghost use Rattle.std.specs.List.{list_any};
ghost use Rattle.cable_model.specs.Connection.{among};
ghost use Rattle.run_queue.specs.Inboxes.{Filters};
ghost use Rattle.conn_core.specs.Subscriptions.{shown};
ghost use Rattle.conn_seat.specs.Ends.{is_row_stopped, is_stopped_in, is_removed_with};
ghost use Rattle.conn_seat.specs.Seats.{Strikes};

use cable_base::Name;
use cable_model::Change;
use conn_core::{Sub, among};
use run_queue::Inbox;
use stream_set::StreamEntry;

/// Strikes the rows for the stream, where it stops.
fn strike_stream(inbox: &mut Inbox, stream: &StreamEntry, stops: &[Name])
    ensures { Filters (λ p. not (is_row_stopped stops.now stream.now p)) inbox.old inbox.new }
{
    if among(stops, stream.name.as_str()) {
        inbox.strike_want(stream.want);
    }
}

/// Strikes the rows for those of the streams that stop.
fn strike_streams(inbox: &mut Inbox, streams: &[StreamEntry], stops: &[Name])
    ensures { Filters (λ p. not (list_any (λ e. is_row_stopped stops.now e p) streams.now)) inbox.old inbox.new }
{
    for stream in streams {
        strike_stream(inbox, stream, stops);
    }
}

/// Strikes the rows for those of the subscription's streams that stop, where it has this identifier.
fn strike_stopped(inbox: &mut Inbox, sub: &Sub, identifier: &str, stops: &[Name])
    ensures { Filters (λ p. not (is_stopped_in identifier.now stops.now (shown sub.now) p)) inbox.old inbox.new }
{
    if sub.identifier() == identifier {
        strike_streams(inbox, sub.streams().entries(), stops);
    }
}

/// Strikes the rows for those of its streams that stop, of the subscription with this identifier.
fn strike_stops(inbox: &mut Inbox, subs: &[Sub], identifier: &str, stops: &[Name])
    ensures { Filters (λ p. not (list_any (λ s. is_stopped_in identifier.now stops.now (shown s) p) subs.now)) inbox.old inbox.new }
{
    for sub in subs {
        strike_stopped(inbox, sub, identifier, stops);
    }
}

/// Strikes the pieces of the subscription, where it has this identifier.
fn strike_named(inbox: &mut Inbox, sub: &Sub, identifier: &str)
    ensures { Filters (λ p. not (is_removed_with identifier.now (shown sub.now) p)) inbox.old inbox.new }
{
    if sub.identifier() == identifier {
        inbox.strike_sub(sub.number());
    }
}

/// Strikes the pieces of the subscription with this identifier.
fn strike_removed(inbox: &mut Inbox, subs: &[Sub], identifier: &str)
    ensures { Filters (λ p. not (list_any (λ s. is_removed_with identifier.now (shown s) p) subs.now)) inbox.old inbox.new }
{
    for sub in subs {
        strike_named(inbox, sub, identifier);
    }
}

/// Strikes the pieces that a change of these subscriptions ends. Where it ends nothing, the inbox is not walked. It takes no memory.
pub fn strike(inbox: &mut Inbox, subs: &[Sub], change: &Change)
    ensures { Strikes change.now (map shown subs.now) inbox.old inbox.new }
{
    match change {
        Change::Nothing => {}
        Change::Add { .. } => {}
        Change::Streams {
            identifier,
            stops,
            ..
        } => strike_stops(inbox, subs, identifier.as_str(), stops.as_slice()),
        Change::Remove { identifier } => strike_removed(inbox, subs, identifier.as_str()),
        Change::Close => inbox.drop_waiting(),
    }
}
