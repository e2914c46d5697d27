ghost use Rattle.std.specs.Prelude.{◌≡◌, ◌++◌, OnOk};
ghost use Rattle.std.specs.List.{list_any};
ghost use Rattle.conn_core.specs.Subscriptions.{has_number, shown};
ghost use Rattle.node_seats.specs.Numbers.{seat_at};
ghost use Rattle.node_turns.specs.Wants.{confirms_of, stands_in};

use cable_base::{OutOfMemory, SubNo};
use cable_model::Piece;
use conn_core::Sub;
use node_seats::{Delivery, Seats, Wanted};

fn stands_among(subs: &[Sub], number: SubNo) -> bool
    ensures { result ≡ list_any (λ s. has_number number (shown s)) subs.now }
{
    subs.iter().any(|sub| sub.number() == number)
}

/// Whether the want's subscription still stands.
fn stands(wanted: &Wanted, seats: &Seats) -> bool
    ensures { result ≡ stands_in wanted.now (seat_at wanted.now.conn.0 seats.now.entries) }
{
    match seats.get(wanted.conn) {
        Some(seat) => stands_among(seat.subs(), wanted.sub),
        None => false,
    }
}

/// Adds the confirmations that are due with these wants, where their subscriptions still stand.
pub fn add_confirms(
    deliveries: &mut Vec<Delivery>,
    wants: &[Wanted],
    seats: &Seats,
) -> Result<(), OutOfMemory>
    ensures { OnOk result (deliveries.new.items ≡ deliveries.old.items ++ confirms_of seats.now.entries wants.now) }
{
    for wanted in wants {
        if wanted.confirms && stands(wanted, seats) {
            deliveries.push(Delivery {
                conn: wanted.conn,
                piece: Piece::Confirm { sub: wanted.sub },
            })?;
        }
    }
    Ok(())
}
