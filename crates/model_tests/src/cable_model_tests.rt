use cable_base::{
    ConnNo, Copied, Listed, Millis, Name, NodeNo, OutOfMemory, Row, RowId, SubNo, Text, WantNo,
};
use cable_json::Command;
use cable_model::{
    Beside, BreakReason, Change, Entry, Event, Line, Note, Origin, Piece, Plan, ReadNote, Status,
    TableEntry, Task, Verb,
};
use channel_book::BookFault;
use std::alloc::Global;
use std::test::Fail;

/// The copy is equal to the value.
fn is_copied<T: Copied + PartialEq + Drop>(alloc: Global, value: &T) -> Result<bool, OutOfMemory> {
    Ok(value.copied(alloc)? == *value)
}

/// A broadcast on a room's stream.
fn row(alloc: Global) -> Result<Row, OutOfMemory> {
    Ok(Row {
        id: RowId(7),
        channel: Name::new(alloc, "room_1")?,
        payload: Text::new(alloc, "{\"said\":1}")?,
        created_at: Millis(1700000000000),
    })
}

/// What a turn found that met this row alone.
fn note_with_row(alloc: Global) -> Result<ReadNote, OutOfMemory> {
    let mut rows = Listed::empty(alloc);
    rows.push(row(alloc)?)?;
    Ok(ReadNote {
        failed: false,
        lower: RowId(2),
        upto: RowId(7),
        last: RowId(9),
        rows,
    })
}

#[test]
fn an_event_is_copied(rt: HostRuntime) -> Result<(), Fail> {
    let alloc = rt.alloc();
    let event = Event::In {
        conn: ConnNo(7),
        text: Text::new(alloc, "{}")?,
    };
    assert!(rt; is_copied(alloc, &event)?);
    Ok(())
}

#[test]
fn a_piece_is_copied(rt: HostRuntime) -> Result<(), Fail> {
    let alloc = rt.alloc();
    let piece = Piece::Confirm { sub: SubNo(1) };
    assert!(rt; is_copied(alloc, &piece)?);
    let broadcast = Piece::Row {
        sub: SubNo(1),
        want: WantNo(2),
        row: row(alloc)?,
    };
    assert!(rt; is_copied(alloc, &broadcast)?);
    let message = Piece::Cmd {
        read: Ok(Command::Message {
            identifier: Text::new(alloc, "{\"channel\":\"Room\"}")?,
            payload: Text::new(alloc, "{\"action\":\"speak\"}")?,
        }),
    };
    assert!(rt; is_copied(alloc, &message)?);
    Ok(())
}

#[test]
fn a_line_is_copied(rt: HostRuntime) -> Result<(), Fail> {
    let alloc = rt.alloc();
    let line = Line::Text {
        conn: ConnNo(7),
        text: Text::new(alloc, "{}")?,
    };
    assert!(rt; is_copied(alloc, &line)?);
    assert!(rt; is_copied(alloc, &Note::Busy)?);
    Ok(())
}

#[test]
fn an_entry_is_copied(rt: HostRuntime) -> Result<(), Fail> {
    let alloc = rt.alloc();
    let mut puts = Listed::empty(alloc);
    puts.push(Some(RowId(7)))?;
    puts.push(None)?;
    let entry = Entry::Finish {
        conn: ConnNo(7),
        puts,
    };
    assert!(rt; is_copied(alloc, &entry)?);
    let beside = Beside::User {
        user: Some(Text::new(alloc, "alice")?),
    };
    assert!(rt; is_copied(alloc, &beside)?);
    Ok(())
}

#[test]
fn a_table_entry_is_copied(rt: HostRuntime) -> Result<(), Fail> {
    let alloc = rt.alloc();
    let entry = TableEntry::Read {
        node: NodeNo(1),
        turn: 1,
        note: note_with_row(alloc)?,
    };
    assert!(rt; is_copied(alloc, &entry)?);
    let commit = TableEntry::Commit {
        from: Origin::Conn(ConnNo(7)),
        id: Some(RowId(7)),
        channel: Name::new(alloc, "room_1")?,
        payload: Text::new(alloc, "{\"said\":1}")?,
        at: Millis(1700000000000),
    };
    assert!(rt; is_copied(alloc, &commit)?);
    Ok(())
}

#[test]
fn a_read_note_is_copied(rt: HostRuntime) -> Result<(), Fail> {
    let alloc = rt.alloc();
    assert!(rt; is_copied(alloc, &note_with_row(alloc)?)?);
    Ok(())
}

#[test]
fn a_verb_is_copied(rt: HostRuntime) -> Result<(), Fail> {
    let alloc = rt.alloc();
    let broadcast = Verb::One {
        event: Event::Cast {
            at: Millis(5),
            channel: Name::new(alloc, "room_1")?,
            payload: Text::new(alloc, "{\"said\":1}")?,
        },
    };
    assert!(rt; is_copied(alloc, &broadcast)?);
    let work = Verb::Work {
        conn: ConnNo(7),
        at: Millis(5),
        puts: 2,
    };
    assert!(rt; is_copied(alloc, &work)?);
    assert!(rt; is_copied(alloc, &Verb::Poll { node: NodeNo(1) })?);
    Ok(())
}

#[test]
fn a_plan_is_copied(rt: HostRuntime) -> Result<(), Fail> {
    let alloc = rt.alloc();
    let mut notes = Listed::empty(alloc);
    notes.push(Note::ReservedCast)?;
    let plan = Plan {
        texts: Listed::empty(alloc),
        notes,
        casts: Listed::empty(alloc),
        change: Change::Remove {
            identifier: Text::new(alloc, "{}")?,
        },
    };
    assert!(rt; is_copied(alloc, &plan)?);
    Ok(())
}

#[test]
fn a_task_is_copied(rt: HostRuntime) -> Result<(), Fail> {
    let alloc = rt.alloc();
    let mut streams = Listed::empty(alloc);
    streams.push(Name::new(alloc, "room_1")?)?;
    let task = Task::Perform {
        identifier: Text::new(alloc, "{}")?,
        payload: Text::new(alloc, "0")?,
        streams,
    };
    assert!(rt; is_copied(alloc, &task)?);
    Ok(())
}

#[test]
fn too_much_has_the_code_12(rt: HostRuntime) {
    assert_eq!(rt; Status::TooMuch.code(), 12);
}

/// The status is printed as this text, and the copy is equal to it.
fn is_told(alloc: Global, status: &Status, text: &str) -> Result<bool, OutOfMemory> {
    Ok(status.text(alloc)?.as_str() == text && status.copy(alloc)? == *status)
}

#[test]
fn statuses_are_copied_and_told(rt: HostRuntime) -> Result<(), Fail> {
    let alloc = rt.alloc();
    let statuses = [
        (Status::Ok, ""),
        (Status::Usage, "usage"),
        (Status::Unended, "unended"),
        (Status::TooLong { line: 3 }, "too-long line 3"),
        (Status::ReadFault, "read-fault"),
        (Status::WriteFault, "write-fault"),
        (Status::OutOfMemory, "out-of-memory"),
        (Status::StoreFault, "store-fault"),
        (Status::NetFault, "net-fault"),
        (Status::TooMuch, "too-much"),
    ];
    for (status, text) in &statuses {
        assert!(rt; is_told(alloc, status, text)?, "{text}");
    }
    Ok(())
}

#[test]
fn a_break_is_told_with_its_line_and_reason(rt: HostRuntime) -> Result<(), Fail> {
    let alloc = rt.alloc();
    let breaks = [
        (1, BreakReason::NoHeader, "bad-script line 1 no-header"),
        (2, BreakReason::NoBook, "bad-script line 2 no-book"),
        (3, BreakReason::NotUtf8, "bad-script line 3 not-utf8"),
        (
            4,
            BreakReason::UnknownVerb,
            "bad-script line 4 unknown-verb",
        ),
        (5, BreakReason::BadWords, "bad-script line 5 bad-words"),
        (6, BreakReason::BadNumber, "bad-script line 6 bad-number"),
        (7, BreakReason::BadJson, "bad-script line 7 bad-json"),
        (8, BreakReason::TooLarge, "bad-script line 8 too-large"),
    ];
    for (line, reason, text) in breaks {
        assert!(rt;
            is_told(alloc, &Status::BadScript { line, reason }, text)?,
            "{text}"
        );
    }
    Ok(())
}

#[test]
fn a_book_is_told_with_its_fault(rt: HostRuntime) -> Result<(), Fail> {
    let alloc = rt.alloc();
    let path = Text::new(alloc, "/channels")?;
    let whole = Text::new(alloc, "")?;
    let template = Text::new(alloc, "action_cable/x")?;
    let name = Text::new(alloc, "Room")?;
    let faults = [
        (BookFault::BadJson, "bad-book bad-json"),
        (BookFault::BadShape { path }, "bad-book bad-shape /channels"),
        (BookFault::BadShape { path: whole }, "bad-book bad-shape "),
        (
            BookFault::ReservedStream { template },
            "bad-book reserved-stream",
        ),
        (BookFault::RepeatedName { name }, "bad-book repeated-name"),
        (BookFault::OutOfMemory, "bad-book out-of-memory"),
    ];
    for (fault, text) in faults {
        assert!(rt; is_told(alloc, &Status::BadBook { fault }, text)?, "{text}");
    }
    Ok(())
}
