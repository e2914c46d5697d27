ghost use Rattle.std.specs.Prelude.{◌≡◌, ◌≤◌, ◌<◌, ◌+◌, length, suc};

use crate::hold_fixtures::{add, hold};
use cable_base::{ConnNo, OutOfMemory, Row, RowId, Steps, SubNo, WantNo};
use cable_fixtures::row;
use cable_model::Piece;
use node_seats::Delivery;
use node_turns::add_rows;
use std::alloc::Global;
use std::marker::Brand;
use std::process::Abort;
use std::sync::ledger::{Blank, Ledger};
use std::test::Fail;
use subscriber_map::SubscriberMap;

const OWN: &str = "action_cable/ann";

/// Two connections hold x, the first of them its own name too.
fn holds<L: Ledger>(map: &mut SubscriberMap, steps: &mut Steps<L>) -> bool {
    add(map, steps, "x", hold(1, 9, 3, 5))
        && add(map, steps, "x", hold(2, 1, 2, 7))
        && add(map, steps, OWN, hold(1, 0, 0, 2))
}

/// Rows with these ids, names and payloads.
fn rows(alloc: Global, told: &[(u64, &str, &str)]) -> Result<Vec<Row>, OutOfMemory> {
    let mut rows = Vec::new(alloc);
    for (id, channel, payload) in told {
        rows.push(row(alloc, *id, channel, payload)?)?;
    }
    Ok(rows)
}

/// Adds what these rows bring to what is delivered.
fn brings<L: Ledger>(
    all: &mut Vec<Delivery>,
    alloc: Global,
    map: &SubscriberMap,
    steps: &mut Steps<L>,
    told: &[(u64, &str, &str)],
) -> Result<(), OutOfMemory> {
    let rows = rows(alloc, told)?;
    add_rows(all, alloc, map, &rows, steps)
}

/// The delivery is the row x for this want.
fn is_x(delivery: Option<&Delivery>, id: u64, conn: u64, sub: u64, want: u64) -> bool {
    match delivery {
        Some(
            Delivery {
                conn: of,
                piece: Piece::Row {
                    sub: s,
                    want: w,
                    row,
                },
            },
        ) => {
            *of == ConnNo(conn)
                && (*s, *w) == (SubNo(sub), WantNo(want))
                && row.id == RowId(id)
                && row.payload.as_str() == "1"
        }
        _ => false,
    }
}

/// The delivery closes connection 1.
fn closes(delivery: Option<&Delivery>, again: bool) -> bool {
    match delivery {
        Some(
            Delivery {
                conn,
                piece: Piece::Remote { reconnect },
            },
        ) => *conn == ConnNo(1) && *reconnect == again,
        _ => false,
    }
}

/// The rows of x come first, and nothing of the row X. The mark of the second connection isn't below 7.
fn has_x(all: &[Delivery]) -> bool {
    is_x(all.get(0), 7, 1, 9, 3) && is_x(all.get(1), 8, 1, 9, 3) && is_x(all.get(2), 8, 2, 1, 2)
}

/// Each row above its mark goes to each holder of its name. Of the rows of an own name only a disconnect is put, and what was there stays.
fn brings_each<L: Ledger>(
    all: &mut Vec<Delivery>,
    alloc: Global,
    map: &SubscriberMap,
    steps: &mut Steps<L>,
) -> Result<[usize; 3], OutOfMemory> {
    brings(
        all,
        alloc,
        map,
        steps,
        &[(7, "x", "1"), (8, "x", "1"), (9, "X", "1")],
    )?;
    let first = all.len();
    brings(
        all,
        alloc,
        map,
        steps,
        &[
            (10, OWN, "{\"type\":\"disconnect\",\"reconnect\":false}"),
            (10, OWN, "{\"type\":\"ping\"}"),
            (10, OWN, "1"),
        ],
    )?;
    let second = all.len();
    brings(
        all,
        alloc,
        map,
        steps,
        &[
            (2, OWN, "{\"type\":\"disconnect\"}"),
            (3, OWN, "{\"type\":\"disconnect\"}"),
        ],
    )?;
    Ok([first, second, all.len()])
}

fn run<L: Ledger>(rt: &impl Abort, alloc: Global, blank: Blank) -> Result<(), Fail>
    requires name { blank.name ≡ L.name }
    requires parts { blank.parts ≡ L.parts }
    requires some { 0 < blank.parts }
{
    let mut steps = Steps::<L>::begin(blank);
    let mut map = SubscriberMap::empty(alloc);
    let mut all = Vec::new(alloc);
    assert!(rt; holds(&mut map, &mut steps));
    let lens = brings_each(&mut all, alloc, &map, &mut steps)?;
    assert_eq!(rt; lens, [3, 4, 5]);
    assert!(rt; has_x(&all) && closes(all.get(3), false) && closes(all.get(4), true));
    Ok(())
}

#[test]
fn rows_are_brought(rt: HostRuntime) -> Result<(), Fail> {
    run::<Brand>(&rt, rt.alloc(), Blank::new(1))
}

/// Lets so many connections hold x.
fn hold_by<L: Ledger>(map: &mut SubscriberMap, steps: &mut Steps<L>, conns: u64) -> bool {
    for conn in 1..=conns {
        if !add(map, steps, "x", hold(conn, 1, 1, 5)) {
            return false;
        }
    }
    true
}

/// How many hold x. However many they are, it takes one step.
fn count<L: Ledger>(map: &SubscriberMap, steps: &mut Steps<L>) -> usize
    ensures { steps.new ≡ suc steps.old }
{
    map.holders("x", steps).len()
}

/// How many pieces these rows bring. However many hold their names, a row takes at most one step.
fn count_brought<L: Ledger>(
    alloc: Global,
    map: &SubscriberMap,
    steps: &mut Steps<L>,
    rows: &[Row],
) -> Result<usize, OutOfMemory>
    ensures { (steps.old ≤ steps.new) × (steps.new ≤ steps.old + length rows.now) }
{
    let mut all = Vec::new(alloc);
    add_rows(&mut all, alloc, map, rows, steps)?;
    Ok(all.len())
}

/// Whether so many hold x, and the one row brings each of them a piece.
fn brings_to<L: Ledger>(
    alloc: Global,
    steps: &mut Steps<L>,
    rows: &[Row],
    conns: u64,
) -> Result<bool, OutOfMemory> {
    let mut map = SubscriberMap::empty(alloc);
    let held = hold_by(&mut map, steps, conns);
    let counted = count(&map, steps) as u64 == conns;
    Ok(held && counted && count_brought(alloc, &map, steps, rows)? as u64 == conns)
}

fn run_counted<L: Ledger>(rt: &impl Abort, alloc: Global, blank: Blank) -> Result<(), Fail>
    requires name { blank.name ≡ L.name }
    requires parts { blank.parts ≡ L.parts }
    requires some { 0 < blank.parts }
{
    let mut steps = Steps::<L>::begin(blank);
    let rows = rows(alloc, &[(9, "x", "1")])?;
    assert!(rt; brings_to(alloc, &mut steps, &rows, 1)?);
    assert!(rt; brings_to(alloc, &mut steps, &rows, 1_000)?);
    Ok(())
}

/// The steps of a row are the same, whether one connection holds its name or 1,000 do: `count` and `count_brought` say so.
#[test]
fn holds_cost_no_steps(rt: HostRuntime) -> Result<(), Fail> {
    run_counted::<Brand>(&rt, rt.alloc(), Blank::new(1))
}
