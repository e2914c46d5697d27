use cable_base::{ConnNo, Millis, Name, NodeNo, OutOfMemory, RowId, Text};
use cable_model::{Event, Line, Note, Verb};
use cable_script::{LineFault, expand, print_event, print_line, read_line};
use std::alloc::{AllocError, Global};
use std::test::Fail;

fn reads(alloc: Global, line: &str, event: Event) -> bool {
    read_line(alloc, line.as_bytes()) == Ok(Verb::One { event })
}

/// Whether each of these lines breaks this rule first.
fn all_break(alloc: Global, fault: LineFault, lines: &[&str]) -> bool {
    for line in lines {
        if read_line(alloc, line.as_bytes()) != Err(fault) {
            return false;
        }
    }
    true
}

fn expands(alloc: Global, verb: &Verb, events: &[Event]) -> Result<bool, OutOfMemory> {
    Ok(expand(alloc, verb)?.as_slice() == events)
}

#[test]
fn lines_of_nodes_are_read(rt: HostRuntime) -> Result<(), Fail> {
    let alloc = rt.alloc();
    let node = NodeNo(8);
    let now = Millis(0);
    assert!(rt; reads(alloc, "boot 8", Event::Boot { node }));
    assert!(rt; reads(alloc, "stop 8", Event::Stop { node }));
    assert!(rt; reads(alloc, "ask 8", Event::Ask { node }));
    assert!(rt; reads(alloc, "read 8", Event::Read { node }));
    assert!(rt; reads(alloc, "deliver 8", Event::Deliver { node }));
    assert!(rt; reads(alloc, "beat 8 0", Event::Beat { node, now }));
    assert!(rt; reads(alloc, "fault", Event::Fault));
    Ok(())
}

#[test]
fn lines_of_connections_are_read(rt: HostRuntime) -> Result<(), Fail> {
    let alloc = rt.alloc();
    let node = NodeNo(1);
    let conn = ConnNo(999_999_999);
    let at = Millis(9_007_199_254_740_991);
    let token = Text::new(alloc, "a\tb")?;
    assert!(rt;
        reads(
            alloc,
            "open 1 999999999 a\tb",
            Event::Open { node, conn, token }
        )
    );
    assert!(rt; reads(alloc, "drop 999999999", Event::Drop { conn }));
    assert!(rt; reads(alloc, "take 999999999", Event::Take { conn }));
    assert!(rt;
        reads(
            alloc,
            "put 999999999 9007199254740991",
            Event::Put { conn, at }
        )
    );
    assert!(rt; reads(alloc, "finish 999999999", Event::Finish { conn }));

    let text = Text::new(alloc, "")?;
    assert!(rt; reads(alloc, "in 999999999 ", Event::In { conn, text }));
    let text = Text::new(alloc, " \u{e9}  b\t\r")?;
    assert!(rt;
        reads(
            alloc,
            "in 999999999  \u{e9}  b\t\r",
            Event::In { conn, text }
        )
    );
    Ok(())
}

#[test]
fn lines_of_the_table_are_read(rt: HostRuntime) -> Result<(), Fail> {
    let alloc = rt.alloc();
    let trim = Event::Trim {
        now: Millis(9_007_199_254_740_991),
        retention: Millis(0),
        batch: 1_000,
    };
    assert!(rt; reads(alloc, "trim 9007199254740991 0 1000", trim));
    let cast = Event::Cast {
        at: Millis(0),
        channel: Name::new(alloc, "action_cable/alice")?,
        payload: Text::new(alloc, "{\"a b\":[1,2]}")?,
    };
    assert!(rt;
        reads(
            alloc,
            "cast 0 action_cable/alice  { \"a b\" :\t[1, 2] } ",
            cast
        )
    );
    Ok(())
}

#[test]
fn lines_of_several_events_are_expanded(rt: HostRuntime) -> Result<(), Fail> {
    let alloc = rt.alloc();
    let (node, conn, at) = (NodeNo(1), ConnNo(1), Millis(5));
    let (take, finish) = (Event::Take { conn }, Event::Finish { conn });
    let (first, second) = (Event::Put { conn, at }, Event::Put { conn, at });
    let work = Verb::Work { conn, at, puts: 2 };
    assert!(rt; expands(alloc, &work, &[take, first, second, finish])?);
    assert!(rt; read_line(alloc, b"work 1 5 2") == Ok(work));

    let (ask, read, deliver) = (
        Event::Ask { node },
        Event::Read { node },
        Event::Deliver { node },
    );
    let poll = Verb::Poll { node };
    assert!(rt; expands(alloc, &poll, &[ask, read, deliver])?);
    assert!(rt; read_line(alloc, b"poll 1") == Ok(poll));
    let fault = Verb::One {
        event: Event::Fault,
    };
    assert!(rt; expands(alloc, &fault, &[Event::Fault])?);
    Ok(())
}

#[test]
fn bad_words_are_refused(rt: HostRuntime) -> Result<(), Fail> {
    let alloc = rt.alloc();
    assert!(rt; read_line(alloc, b"in 7 \xff") == Err(LineFault::NotUtf8));
    assert!(rt; read_line(alloc, b"\xc3") == Err(LineFault::NotUtf8));
    let unknown = [
        "",
        " boot 1",
        "Boot 1",
        "boot\t1",
        "bootx 1",
        "book {}",
        "cable-script 1",
    ];
    assert!(rt; all_break(alloc, LineFault::UnknownVerb, &unknown));

    // Too few words, too many, or an empty one, whatever the numbers say.
    let nodes = [
        "boot", "boot ", "boot  1", "boot 9 ", "boot x 1", "beat 1", "poll 1 2",
    ];
    assert!(rt; all_break(alloc, LineFault::BadWords, &nodes));
    let conns = [
        "open 9 7",
        "open 1  t",
        "open 1 7 t u",
        "in 7",
        "in x",
        "in  hello",
        "put 0",
        "work 1 0",
        "work 0 x 1 1",
        "finish 7 ",
    ];
    assert!(rt; all_break(alloc, LineFault::BadWords, &conns));
    let table = [
        "cast 5 x",
        "cast x y",
        "cast 5  {}",
        "trim 5 5 ",
        "fault ",
        "fault x",
    ];
    assert!(rt; all_break(alloc, LineFault::BadWords, &table));
    Ok(())
}

#[test]
fn bad_numbers_and_bad_json_are_refused(rt: HostRuntime) -> Result<(), Fail> {
    let alloc = rt.alloc();
    let spellings = [
        "boot 01",
        "boot +1",
        "boot 1.0",
        "boot 1\r",
        "put 1 00",
        "in 07 ",
        "open 1 x t",
        "beat 1 -1",
        "poll \u{661}",
        "work 1 0 -0",
    ];
    assert!(rt; all_break(alloc, LineFault::BadNumber, &spellings));
    let ranges = [
        "boot 0",
        "boot 9",
        "boot 18446744073709551617",
        "drop 0",
        "drop 1000000000",
        "put 1 9007199254740992",
        "work 1 0 1001",
        "trim 0 0 0",
        "trim 0 0 1001",
        "trim 0 9007199254740992 1",
    ];
    assert!(rt; all_break(alloc, LineFault::BadNumber, &ranges));

    // A number comes before the JSON behind it.
    assert!(rt; all_break(alloc, LineFault::BadNumber, &["cast x y {"]));
    let json = [
        "cast 5 x ",
        "cast 5 x  ",
        "cast 5 x {",
        "cast 5 x {} {}",
        "cast 5 x 01",
        "cast 5 x y",
        "cast 5 x [1,]",
    ];
    assert!(rt; all_break(alloc, LineFault::BadJson, &json));
    Ok(())
}

/// The line of a cast with a name and a payload of so many bytes, and white space around the payload.
fn cast(alloc: Global, name_bytes: usize, payload_bytes: usize) -> Result<String, AllocError> {
    let mut line = String::from_str(alloc, "cast 0 ")?;
    for _ in 0..name_bytes {
        line.push('a')?;
    }
    line.push_str("  \"")?;
    for _ in 2..payload_bytes {
        line.push(' ')?;
    }
    line.push_str("\"  ")?;
    Ok(line)
}

#[test]
fn large_casts_are_refused(rt: HostRuntime) -> Result<(), Fail> {
    let alloc = rt.alloc();
    let largest = cast(alloc, 1_024, 1_048_576)?;
    assert!(rt; read_line(alloc, largest.as_bytes()).is_ok());
    let long_name = cast(alloc, 1_025, 2)?;
    assert!(rt; all_break(alloc, LineFault::TooLarge, &[long_name.as_str()]));
    let long_payload = cast(alloc, 1_024, 1_048_577)?;
    assert!(rt; all_break(alloc, LineFault::TooLarge, &[long_payload.as_str()]));

    // A name that is too long doesn't hide that the JSON is bad.
    let mut bad_json = cast(alloc, 1_025, 2)?;
    bad_json.push('x')?;
    assert!(rt; all_break(alloc, LineFault::BadJson, &[bad_json.as_str()]));
    Ok(())
}

/// Whether each of these events has this line, and is read back from it.
fn all_print(alloc: Global, events: &[(Event, &str)]) -> Result<bool, OutOfMemory> {
    for (event, line) in events {
        let printed = print_event(alloc, event)?;
        let read = read_line(alloc, printed.as_str().as_bytes());
        let event = event.copy(alloc)?;
        if printed.as_str() != *line || read != Ok(Verb::One { event }) {
            return Ok(false);
        }
    }
    Ok(true)
}

#[test]
fn events_are_printed_and_read_back(rt: HostRuntime) -> Result<(), Fail> {
    let alloc = rt.alloc();
    let (node, conn, at, now) = (NodeNo(1), ConnNo(7), Millis(5), Millis(3000));
    let nodes = [
        (Event::Boot { node }, "boot 1"),
        (Event::Stop { node }, "stop 1"),
        (Event::Ask { node }, "ask 1"),
        (Event::Read { node }, "read 1"),
        (Event::Deliver { node }, "deliver 1"),
        (Event::Beat { node, now }, "beat 1 3000"),
        (Event::Fault, "fault"),
    ];
    assert!(rt; all_print(alloc, &nodes)?);

    let token = Text::new(alloc, "t1")?;
    let text = Text::new(alloc, "{}")?;
    let conns = [
        (Event::Open { node, conn, token }, "open 1 7 t1"),
        (Event::In { conn, text }, "in 7 {}"),
        (Event::Drop { conn }, "drop 7"),
        (Event::Take { conn }, "take 7"),
        (Event::Put { conn, at }, "put 7 5"),
        (Event::Finish { conn }, "finish 7"),
    ];
    assert!(rt; all_print(alloc, &conns)?);

    let cast = Event::Cast {
        at,
        channel: Name::new(alloc, "room_1")?,
        payload: Text::new(alloc, "{\"n\":1}")?,
    };
    let trim = Event::Trim {
        now: Millis(9),
        retention: Millis(1),
        batch: 100,
    };
    let table = [(cast, "cast 5 room_1 {\"n\":1}"), (trim, "trim 9 1 100")];
    assert!(rt; all_print(alloc, &table)?);
    Ok(())
}

#[test]
fn lines_of_the_transcript_are_printed(rt: HostRuntime) -> Result<(), Fail> {
    let alloc = rt.alloc();
    let conn = ConnNo(7);
    let text = Text::new(alloc, "{\"type\":\"welcome\"}")?;
    let busy = Line::Note {
        conn: Some(conn),
        note: Note::Busy,
    };
    let refused = Line::Note {
        conn: None,
        note: Note::StoreRefused,
    };
    let lines = [
        (Line::Text { conn, text }, "7 {\"type\":\"welcome\"}"),
        (busy, "7 ! busy"),
        (refused, "- ! store-refused"),
        (Line::Row { id: RowId(3) }, "- row 3"),
        (Line::Trimmed { count: 2 }, "- trimmed 2"),
    ];
    for (line, text) in &lines {
        assert!(rt; print_line(alloc, line)?.as_str() == *text, "{text}");
    }
    Ok(())
}
