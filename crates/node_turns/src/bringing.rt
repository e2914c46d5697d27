ghost use Rattle.std.specs.Prelude.{◌≡◌, ◌≤◌, ◌+◌, ◌++◌, IfOk, OnOk, flat_map, length, option_to_list};
ghost use Rattle.node_turns.specs.Holding.{held_puts, piece_for as piece_of, rows_bring};

use cable_base::{OutOfMemory, Row, Steps};
use cable_json::remote;
use cable_model::Piece;
use node_seats::Delivery;
use std::alloc::Global;
use std::sync::ledger::Ledger;
use subscriber_map::{Hold, SubscriberMap};

/// The piece of this row for the hold, if it brings one.
fn piece_for(alloc: Global, hold: &Hold, row: &Row) -> Result<Option<Piece>, OutOfMemory>
    ensures { IfOk result (λ piece. option_to_list piece ≡ piece_of hold.now row.now) }
{
    if hold.sub.0 == 0 {
        return Ok(match remote(alloc, row.payload.as_str())? {
            Some(reconnect) => Some(Piece::Remote { reconnect }),
            None => None,
        });
    }
    Ok(Some(Piece::Row {
        sub: hold.sub,
        want: hold.want,
        row: row.copy(alloc)?,
    }))
}

/// Adds what this row puts for the hold: nothing, where the mark isn't below its id.
fn add_for_hold(
    deliveries: &mut Vec<Delivery>,
    alloc: Global,
    hold: &Hold,
    row: &Row,
) -> Result<(), OutOfMemory>
    ensures { OnOk result (deliveries.new.items ≡ deliveries.old.items ++ held_puts row.now hold.now) }
{
    if hold.mark < row.id {
        if let Some(piece) = piece_for(alloc, hold, row)? {
            deliveries.push(Delivery {
                conn: hold.conn,
                piece,
            })?;
        }
    }
    Ok(())
}

/// Adds what this row puts for these holds, in their order.
fn add_for_holds(
    deliveries: &mut Vec<Delivery>,
    alloc: Global,
    holds: &[Hold],
    row: &Row,
) -> Result<(), OutOfMemory>
    ensures { OnOk result (deliveries.new.items ≡ deliveries.old.items ++ flat_map (held_puts row.now) holds.now) }
{
    for hold in holds {
        add_for_hold(deliveries, alloc, hold, row)?;
    }
    Ok(())
}

/// Adds what these rows put, in their order: each row for the holds of exactly its name whose mark is below its id. For a connection's own
/// hold a payload that is a disconnect closes the connection, and another is passed over. It takes at most one step a row.
pub fn add_rows<L: Ledger>(
    deliveries: &mut Vec<Delivery>,
    alloc: Global,
    holders: &SubscriberMap,
    rows: &[Row],
    steps: &mut Steps<L>,
) -> Result<(), OutOfMemory>
    ensures rows { OnOk result (deliveries.new.items ≡ deliveries.old.items ++ rows_bring holders.now rows.now) }

    // Whatever the answer, a row takes at most one step.
    ensures steps { (steps.old ≤ steps.new) × (steps.new ≤ steps.old + length rows.now) }
{
    for row in rows {
        let holds = holders.holders(row.channel.as_str(), steps);
        add_for_holds(deliveries, alloc, holds, row)?;
    }
    Ok(())
}
