use cable_base::{ConnNo, RowId, Steps, SubNo, WantNo};
use std::sync::ledger::Ledger;
use subscriber_map::{Hold, SubscriberMap};

pub fn hold(conn: u64, sub: u64, want: u64, mark: u64) -> Hold {
    Hold {
        conn: ConnNo(conn),
        sub: SubNo(sub),
        want: WantNo(want),
        mark: RowId(mark),
    }
}

/// Adds a hold, where its connection has no such hold of the name yet.
pub fn add<L: Ledger>(
    map: &mut SubscriberMap,
    steps: &mut Steps<L>,
    name: &str,
    hold: Hold,
) -> bool {
    let holders = map.holders(name, steps);
    let stands = holders.iter().any(|h| h.conn == hold.conn
        && (h.sub == hold.sub || h.want == hold.want));
    !stands && map.add(name, hold).is_ok()
}
