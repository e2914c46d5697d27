ghost use Rattle.std.specs.Prelude.{IfOk};
ghost use Rattle.cable_base.specs.Squeeze.{IsSqueezedJson};

use cable_base::{Millis, NodeNo, OutOfMemory, Row, RowId, Text, squeeze};
use cable_json::read_json;
use cable_model::Origin;
use poll_turn::{Caught, Cursor, Turn, channel_hash};
use std::alloc::Global;
use std::test::Fail;
use table_core::{Keeper, KeeperFault, MemKeeper, NotStarted, StoreFault, Table};

/// The greatest id of a row.
const MOST: u64 = 9_223_372_036_854_775_807;

/// A call of a table, with what it has to answer.
#[derive(Clone, Copy)]
enum Act {
    /// A node boots, and is told this last id.
    Boots {
        node: u32,
        last: u64,
    },
    /// Commits a message under this id.
    Commits {
        stream: &'static str,
        at: u64,
        id: u64,
    },
    CannotCommit(StoreFault),
    /// Commits so many messages at the moment 0.
    Fills(u64),
    IsLast(u64),
    /// Reads the rows of these streams above an id. They have these ids.
    Reads {
        lower: u64,
        streams: &'static [&'static str],
        ids: &'static [u64],
    },
    CannotRead,
    Trims {
        now: u64,
        retention: u64,
        batch: u64,
        taken: u64,
    },
    CannotTrim,
    FailsNext,
}

/// The payload of a message, `[1]`, from a text with white space.
fn payload(alloc: Global) -> Result<Text, OutOfMemory>
    ensures { IfOk result IsSqueezedJson }
{
    match read_json(alloc, "[ 1 ]")? {
        Some(_) => squeeze(alloc, "[ 1 ]"),
        None => Err(OutOfMemory),
    }
}

/// Commits the message on a stream, as the application. It is refused beyond the limits, too.
fn commit<K: Keeper>(
    table: &mut Table<K>,
    alloc: Global,
    stream: &str,
    at: u64,
) -> Result<RowId, StoreFault> {
    let payload = payload(alloc)?;
    if stream.len() > 1024 || payload.as_str().len() > 1_048_576 || at >= 1 << 53 {
        return Err(StoreFault::OutOfMemory);
    }
    table.commit(Origin::Cast, stream, payload.as_str(), Millis(at))
}

fn fills(table: &mut Table<MemKeeper>, alloc: Global, count: u64) -> bool {
    for _ in 0..count {
        if commit(table, alloc, "x", 0).is_err() {
            return false;
        }
    }
    true
}

/// A turn of node 1 that asks for the rows of these streams above an id.
fn turn(alloc: Global, lower: u64, streams: &[&str]) -> Result<Turn, Fail> {
    let mut hashes = Vec::new(alloc);
    for stream in streams {
        hashes.push(channel_hash(stream))?;
    }
    match Cursor::at(RowId(lower)).ask(NodeNo(1), hashes) {
        Some(turn) => Ok(turn),
        None => Err(Fail::from("a turn is out")),
    }
}

/// What a turn catches.
fn caught(
    table: &mut Table<MemKeeper>,
    alloc: Global,
    lower: u64,
    streams: &[&str],
) -> Result<Caught, Fail> {
    match table.read(turn(alloc, lower, streams)?) {
        Ok(caught) => Ok(caught),
        Err(turn) => {
            turn.give_up();
            Err(Fail::from("no memory"))
        }
    }
}

fn have_ids(rows: &[Row], ids: &[u64]) -> bool {
    if rows.len() != ids.len() {
        return false;
    }
    for place in 0..rows.len() {
        if rows[place].id.0 != ids[place] {
            return false;
        }
    }
    true
}

/// Whether the rows of these streams above an id have these ids.
fn reads(
    table: &mut Table<MemKeeper>,
    alloc: Global,
    lower: u64,
    streams: &[&str],
    ids: &[u64],
) -> Result<bool, Fail> {
    let caught = caught(table, alloc, lower, streams)?;
    let has_them = !caught.is_missed() && have_ids(caught.rows(), ids);
    caught.give_up();
    Ok(has_them)
}

fn misses(table: &mut Table<MemKeeper>, alloc: Global) -> Result<bool, Fail> {
    let caught = caught(table, alloc, 0, &["x"])?;
    let is_missed = caught.is_missed();
    caught.give_up();
    Ok(is_missed)
}

/// Makes a call, and tells whether it answers what it has to.
fn does(table: &mut Table<MemKeeper>, alloc: Global, act: Act) -> Result<bool, Fail> {
    match act {
        Act::Boots { node, last } => Ok(table.boot(NodeNo(node))? == RowId(last)),
        Act::Commits { stream, at, id } => Ok(commit(table, alloc, stream, at) == Ok(RowId(id))),
        Act::CannotCommit(why) => Ok(commit(table, alloc, "x", 0) == Err(why)),
        Act::Fills(count) => Ok(fills(table, alloc, count)),
        Act::IsLast(id) => Ok(table.last() == RowId(id)),
        Act::Reads {
            lower,
            streams,
            ids,
        } => reads(table, alloc, lower, streams, ids),
        Act::CannotRead => misses(table, alloc),
        Act::Trims {
            now,
            retention,
            batch,
            taken,
        } => Ok(table.trim(Millis(now), Millis(retention), batch) == Ok(taken)),
        Act::CannotTrim => { Ok(table.trim(Millis(10), Millis(0), 100) == Err(StoreFault::Failed)) }
        Act::FailsNext => {
            table.fail_next();
            Ok(true)
        }
    }
}

fn start<K: Keeper + Drop>(alloc: Global, keeper: K) -> Result<Table<K>, Fail> {
    match Table::start(alloc, keeper) {
        Ok(table) => Ok(table),
        Err(NotStarted { .. }) => Err(Fail::from("not started")),
    }
}

/// The place of the first of these calls of a table over this keeper that answers something else.
fn first_fault(alloc: Global, keeper: MemKeeper, acts: &[Act]) -> Result<Option<usize>, Fail> {
    let mut table = start(alloc, keeper)?;
    for (place, act) in acts.iter().enumerate() {
        if !does(&mut table, alloc, *act)? {
            return Ok(Some(place));
        }
    }
    Ok(None)
}

/// What comes of these calls of a table that begins empty.
fn of_empty(alloc: Global, acts: &[Act]) -> Result<Option<usize>, Fail> {
    first_fault(alloc, MemKeeper::empty(alloc), acts)
}

#[test]
fn commits_reads_and_trims(rt: HostRuntime) -> Result<(), Fail> {
    let acts = [
        Act::Boots { node: 1, last: 0 },
        Act::Commits {
            stream: "x",
            at: 0,
            id: 1,
        },
        Act::Commits {
            stream: "x",
            at: 0,
            id: 2,
        },
        Act::Boots { node: 2, last: 2 },
        Act::Reads {
            lower: 0,
            streams: &["x"],
            ids: &[1, 2],
        },
        Act::Trims {
            now: 10,
            retention: 0,
            batch: 100,
            taken: 1,
        },
        Act::Reads {
            lower: 0,
            streams: &["x"],
            ids: &[2],
        },
    ];
    assert_eq!(rt; of_empty(rt.alloc(), acts.as_slice())?, None);
    Ok(())
}

/// Whether the only row is the message on the stream `x` at the moment 5.
fn is_message(rows: &[Row]) -> bool {
    match rows {
        [row] => {
            row.channel.as_str() == "x"
                && row.payload.as_str() == "[1]"
                && row.created_at == Millis(5)
        }
        _ => false,
    }
}

/// Whether a read of the stream `x` goes up to the row 2, and finds the message.
fn reads_to_the_end(table: &mut Table<MemKeeper>, alloc: Global) -> Result<bool, Fail> {
    let caught = caught(table, alloc, 0, &["x"])?;
    let is_it = is_message(caught.rows())
        && caught.lower() == RowId(0)
        && caught.upto() == RowId(2)
        && caught.last() == RowId(2);
    caught.give_up();
    Ok(is_it)
}

#[test]
fn reads_end_at_the_last_id(rt: HostRuntime) -> Result<(), Fail> {
    let alloc = rt.alloc();
    let mut table = start(alloc, MemKeeper::empty(alloc))?;
    assert!(rt; commit(&mut table, alloc, "x", 5) == Ok(RowId(1)));
    assert!(rt; commit(&mut table, alloc, "y", 6) == Ok(RowId(2)));
    assert!(rt; reads_to_the_end(&mut table, alloc)?);
    Ok(())
}

#[test]
fn failed_calls_change_nothing(rt: HostRuntime) -> Result<(), Fail> {
    let acts = [
        Act::Fills(2),
        Act::FailsNext,
        Act::CannotCommit(StoreFault::Failed),
        Act::IsLast(2),
        Act::FailsNext,
        Act::CannotTrim,
        Act::FailsNext,
        Act::CannotRead,
        Act::Reads {
            lower: 0,
            streams: &["x"],
            ids: &[1, 2],
        },
    ];
    assert_eq!(rt; of_empty(rt.alloc(), acts.as_slice())?, None);
    Ok(())
}

/// A read finds the rows of the streams that it asks for, above the id.
const SEEKS: [Act; 10] = [
    Act::Commits {
        stream: "a",
        at: 5,
        id: 1,
    },
    Act::Commits {
        stream: "b",
        at: 5,
        id: 2,
    },
    Act::Commits {
        stream: "a",
        at: 5,
        id: 3,
    },
    Act::Commits {
        stream: "c",
        at: 5,
        id: 4,
    },
    Act::Commits {
        stream: "b",
        at: 5,
        id: 5,
    },
    Act::Commits {
        stream: "a",
        at: 5,
        id: 6,
    },
    Act::Reads {
        lower: 0,
        streams: &["a", "a"],
        ids: &[1, 3, 6],
    },
    Act::Reads {
        lower: 1,
        streams: &["b", "a"],
        ids: &[2, 3, 5, 6],
    },
    Act::Reads {
        lower: 3,
        streams: &["a", "d"],
        ids: &[6],
    },
    Act::Reads {
        lower: 6,
        streams: &["a", "b"],
        ids: &[],
    },
];

#[test]
fn reads_ask_by_hash_and_id(rt: HostRuntime) -> Result<(), Fail> {
    assert_eq!(rt; of_empty(rt.alloc(), &SEEKS)?, None);
    Ok(())
}

#[test]
fn trims_take_batches_by_id(rt: HostRuntime) -> Result<(), Fail> {
    let acts = [
        Act::Fills(101),
        Act::Commits {
            stream: "x",
            at: 5000,
            id: 102,
        },
        Act::Trims {
            now: 5000,
            retention: 1000,
            batch: 100,
            taken: 100,
        },
        Act::Trims {
            now: 5000,
            retention: 1000,
            batch: 100,
            taken: 1,
        },
        Act::Trims {
            now: 5000,
            retention: 1000,
            batch: 100,
            taken: 0,
        },
    ];
    assert_eq!(rt; of_empty(rt.alloc(), acts.as_slice())?, None);
    Ok(())
}

/// The edge of the retention stays, and so does the newest row. Lowest ids go first.
const EDGES: [Act; 16] = [
    Act::Commits {
        stream: "x",
        at: 4000,
        id: 1,
    },
    Act::Commits {
        stream: "x",
        at: 1000,
        id: 2,
    },
    Act::Commits {
        stream: "x",
        at: 2000,
        id: 3,
    },
    Act::Commits {
        stream: "x",
        at: 1500,
        id: 4,
    },
    Act::Commits {
        stream: "x",
        at: 3000,
        id: 5,
    },
    Act::Commits {
        stream: "x",
        at: 0,
        id: 6,
    },
    Act::Trims {
        now: 3000,
        retention: 1000,
        batch: 0,
        taken: 0,
    },
    Act::Reads {
        lower: 0,
        streams: &["x"],
        ids: &[1, 2, 3, 4, 5, 6],
    },
    Act::Trims {
        now: 3000,
        retention: 1000,
        batch: 1,
        taken: 1,
    },
    Act::Reads {
        lower: 0,
        streams: &["x"],
        ids: &[1, 3, 4, 5, 6],
    },
    Act::Trims {
        now: 3000,
        retention: 1000,
        batch: 5,
        taken: 1,
    },
    Act::Reads {
        lower: 0,
        streams: &["x"],
        ids: &[1, 3, 5, 6],
    },
    Act::Trims {
        now: 3000,
        retention: 1000,
        batch: 5,
        taken: 0,
    },
    Act::Reads {
        lower: 0,
        streams: &["x"],
        ids: &[1, 3, 5, 6],
    },
    Act::Trims {
        now: 9000,
        retention: 9500,
        batch: 100,
        taken: 0,
    },
    Act::Trims {
        now: 9000,
        retention: 1000,
        batch: 100,
        taken: 3,
    },
];

#[test]
fn trims_keep_the_edge_and_the_newest(rt: HostRuntime) -> Result<(), Fail> {
    assert_eq!(rt; of_empty(rt.alloc(), &EDGES)?, None);
    Ok(())
}

/// What two commits answer on a table over a keeper that is lent, which starts at this id.
fn last_commits(alloc: Global, first: u64) -> Result<[Result<RowId, StoreFault>; 2], Fail> {
    if first == 0 || first > MOST {
        return Err(Fail::from("no id of a row"));
    }
    let mut keeper = MemKeeper::starting_at(alloc, RowId(first))?;
    let mut table = start(alloc, &mut keeper)?;
    let one = commit(&mut table, alloc, "x", 0);
    let other = commit(&mut table, alloc, "x", 0);
    Ok([one, other])
}

#[test]
fn ids_are_spent_at_the_greatest(rt: HostRuntime) -> Result<(), Fail> {
    let spent = Err(StoreFault::IdsSpent);
    assert!(rt; last_commits(rt.alloc(), MOST)? == [spent, spent]);
    assert!(rt; last_commits(rt.alloc(), MOST - 1)? == [Ok(RowId(MOST)), spent]);
    Ok(())
}

/// A keeper of which the first and the third call fail.
fn failing(alloc: Global) -> Result<MemKeeper, OutOfMemory> {
    Ok(MemKeeper::failing(alloc, vec![in alloc; 1, 3]?))
}

/// The keeper over which no table is started, since it fails.
fn handed_back(alloc: Global, keeper: MemKeeper) -> Option<MemKeeper> {
    match Table::start(alloc, keeper) {
        Ok(_) => None,
        Err(
            NotStarted {
                keeper,
                fault: StoreFault::Failed,
            },
        ) => Some(keeper),
        Err(NotStarted { .. }) => None,
    }
}

/// The keeper that was handed back had one call, and its third one fails.
#[test]
fn keepers_fail_at_the_listed_calls(rt: HostRuntime) -> Result<(), Fail> {
    let alloc = rt.alloc();
    let keeper = handed_back(alloc, failing(alloc)?).ok_or("started")?;
    let acts = [
        Act::CannotCommit(StoreFault::Failed),
        Act::Commits {
            stream: "x",
            at: 0,
            id: 1,
        },
    ];
    assert_eq!(rt; first_fault(alloc, keeper, acts.as_slice())?, None);
    Ok(())
}

/// A keeper without rows has no id, and finds nothing.
fn has_no_rows(keeper: &mut MemKeeper, alloc: Global) -> Result<bool, Fail> {
    let hashes = vec![in alloc; channel_hash("x")]?;
    let is_last = keeper.last_id() == Ok(RowId(0));
    let found = keeper.fetch(RowId(0), &hashes, 5)?;
    Ok(is_last && found.is_empty())
}

fn fails_next(keeper: &mut MemKeeper) -> bool {
    keeper.fail_next();
    keeper.trim(Millis(5), RowId(5), 5) == Err(KeeperFault::Failed)
}

#[test]
fn calls_of_an_empty_keeper(rt: HostRuntime) -> Result<(), Fail> {
    let mut keeper = MemKeeper::empty(rt.alloc());
    assert!(rt; has_no_rows(&mut keeper, rt.alloc())?);
    assert!(rt; fails_next(&mut keeper));
    Ok(())
}

/// A trim of so many rows with ids below this one, after which this id is the last.
fn trims(keeper: &mut MemKeeper, below: u64, taken: u64, last: u64) -> bool {
    keeper.trim(Millis(1), RowId(below), 5) == Ok(taken) && keeper.last_id() == Ok(RowId(last))
}

#[test]
fn calls_of_a_keeper_with_one_row(rt: HostRuntime) -> Result<(), Fail> {
    let mut keeper = MemKeeper::starting_at(rt.alloc(), RowId(7))?;
    assert!(rt; keeper.last_id() == Ok(RowId(7)));
    assert!(rt; trims(&mut keeper, 7, 0, 7));
    assert!(rt; trims(&mut keeper, 8, 1, 0));
    Ok(())
}
