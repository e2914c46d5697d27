use cable_base::{ConnNo, Listed, Millis, Name, Row, RowId, Text};
use cable_model::{Entry, ReadNote};
use node_log::NodeLog;
use std::alloc::Global;
use std::test::Fail;

/// A log's first entries, and those that own texts and lists.
fn entries(alloc: Global) -> Result<Vec<Entry>, Fail> {
    let row = Row {
        id: RowId(4),
        channel: Name::new(alloc, "room_1")?,
        payload: Text::new(alloc, "{}")?,
        created_at: Millis(5),
    };
    let note = ReadNote {
        failed: false,
        lower: RowId(3),
        upto: RowId(4),
        last: RowId(4),
        rows: Listed::of(vec![in alloc; row]?),
    };
    let entries = vec![in alloc;
        Entry::Boot { last: RowId(3) },
        Entry::Open {
            conn: ConnNo(7),
            token: Text::new(alloc, "t1")?
        },
        Entry::Take { conn: ConnNo(7) },
        Entry::Finish {
            conn: ConnNo(7),
            puts: Listed::of(vec![in alloc; Some(RowId(4)), None]?)
        },
        Entry::Ask { turn: 1 },
        Entry::Deliver { turn: 1, note },
    ]?;
    Ok(entries)
}

#[test]
fn a_log_grows(rt: HostRuntime) -> Result<(), Fail> {
    let alloc = rt.alloc();
    let mut log = NodeLog::empty(alloc);
    assert_eq!(rt; log.entries().len(), 0);
    log.reserve(2)?;
    for entry in entries(alloc)? {
        log.push(entry)?;
    }
    let wanted = entries(alloc)?;
    assert_eq!(rt; log.entries(), wanted.as_slice());
    assert_eq!(rt;
        NodeLog::of(alloc, log.entries())?.entries(),
        wanted.as_slice()
    );
    Ok(())
}
