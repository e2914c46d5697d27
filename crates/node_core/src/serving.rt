ghost use Rattle.std.specs.Prelude.{◌≡◌, ◌≤◌, ◌+◌, ◌∷◌, [], length, IfOk};
ghost use Rattle.node_seats.specs.Numbers.{may_take_at};
ghost use Rattle.node_core.specs.Serving.{conns_of, ListsOnce, Refreshes};

use cable_base::{ConnNo, OutOfMemory};
use node_seats::{Delivery, Seats};
use run_queue::Ready;
use std::alloc::Global;

/// Whether a piece of the connection may be taken.
fn may_take(seats: &Seats, conn: ConnNo) -> bool
    ensures { result ≡ may_take_at conn.0 seats.now.entries }
{
    match seats.get(conn) {
        Some(seat) => seat.may_take(),
        None => false,
    }
}

/// Keeps the connection among the ready ones exactly where a piece of it may be taken. It takes no memory, since there is room for it.
pub(crate) fn refresh(ready: &mut Ready, seats: &Seats, conn: ConnNo)
    requires { 1 ≤ ready.old.spare }
    ensures refreshes { Refreshes seats.now.entries (conn ∷ []) ready.old.waiting ready.new.waiting }
    ensures spare { ready.old.spare ≤ ready.new.spare + 1 }
{
    if may_take(seats, conn) {
        let _ = ready.put(conn);
    } else {
        ready.drop_out(conn);
    }
}

/// Keeps each of these connections among the ready ones exactly where a piece of it may be taken. It takes no memory, since there is room
/// for all of them.
pub(crate) fn refresh_all(ready: &mut Ready, seats: &Seats, conns: &[ConnNo])
    requires { length conns.now ≤ ready.old.spare }
    ensures { Refreshes seats.now.entries conns.now ready.old.waiting ready.new.waiting }
{
    for conn in conns {
        refresh(ready, seats, *conn);
    }
}

/// Leaves each connection of the list once. It takes no memory.
fn leave_once(conns: &mut Vec<ConnNo>)
    ensures { ListsOnce conns.old.items conns.new.items }
{
    conns.sort_unstable();
    conns.dedup();
}

/// The connections that these are for, each once.
pub(crate) fn conns_of(alloc: Global, deliveries: &[Delivery]) -> Result<Vec<ConnNo>, OutOfMemory>
    ensures { IfOk result (λ conns. ListsOnce (conns_of deliveries.now) conns.items) }
{
    let mut conns = Vec::new(alloc);
    for delivery in deliveries {
        conns.push(delivery.conn)?;
    }
    leave_once(&mut conns);
    Ok(conns)
}
