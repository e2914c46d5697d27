use cable_base::{
    Clock, Copied, Failed, Listed, MemSink, MemSource, Millis, Name, Row, RowId, Sink, Source,
    SystemClock, Text, Trouble, squeeze,
};
use serde_json::Value;
use std::test::Fail;

#[test]
fn squeezing_json(rt: HostRuntime) -> Result<(), Fail> {
    let alloc = rt.alloc();
    for (text, wanted) in [
        ("{ \"a b\" : 1.50 }", "{\"a b\":1.50}"),
        ("\t[\"\\\" x\", 1 ,\r\n{ } ] ", "[\"\\\" x\",1,{}]"),
    ] {
        let _ = Value::from_str(alloc, text)?;
        let once = squeeze(alloc, text)?;
        assert_eq!(rt; once.as_str(), wanted);
        assert_eq!(rt; squeeze(alloc, once.as_str())?, once);
    }
    Ok(())
}

#[test]
fn copies(rt: HostRuntime) -> Result<(), Fail> {
    let alloc = rt.alloc();
    let text = Text::new(alloc, "{\"a\":\"\u{e9}\"}")?;
    let name = Name::new(alloc, "room:1")?;
    assert_eq!(rt; text.copy(alloc)?, text);
    assert_eq!(rt; name.copied(alloc)?, name);
    assert_ne!(rt; name, Name::new(alloc, "room:2")?);

    let mut texts = Listed::empty(alloc);
    texts.push(text.copy(alloc)?)?;
    texts.push(Text::new(alloc, "")?)?;
    assert_eq!(rt; texts.as_slice().len(), 2);
    assert_eq!(rt; texts.copy(alloc)?, texts);

    let row = Row {
        id: RowId(7),
        channel: name,
        payload: text,
        created_at: Millis(1_700_000_000_000),
    };
    assert_eq!(rt; row.copy(alloc)?, row);
    let rows = Listed::of(vec![in alloc; row]?);
    assert_eq!(rt; rows.copied(alloc)?, rows);
    let ids = Listed::of(vec![in alloc; Some(RowId(7)), None]?);
    assert_eq!(rt; ids.copy(alloc)?, ids);
    Ok(())
}

#[test]
fn a_source_in_memory(rt: HostRuntime) -> Result<(), Fail> {
    let alloc = rt.alloc();
    let bytes = vec![in alloc; b'a', b'b', b'c', b'd', b'e']?;
    let mut source = MemSource::new(bytes, 2, vec![in alloc; 2, 6]?);
    let mut buf = [0; 4];
    for (count, wanted) in [
        (Ok(2), b"ab\0\0"),
        (Err(Failed), b"ab\0\0"),
        (Ok(2), b"cd\0\0"),
        (Ok(1), b"ed\0\0"),
        (Ok(0), b"ed\0\0"),
        (Err(Failed), b"ed\0\0"),
        (Ok(0), b"ed\0\0"),
    ] {
        assert_eq!(rt; source.next_piece(&mut buf), count);
        assert_eq!(rt; &buf, wanted);
    }
    Ok(())
}

#[test]
fn a_sink_in_memory(rt: HostRuntime) -> Result<(), Fail> {
    let alloc = rt.alloc();
    let mut sink = MemSink::new(alloc, vec![in alloc; 1, 3]?);
    for (answer, wanted) in [
        (Err(Trouble::Failed), ""),
        (Ok(2), "xy"),
        (Err(Trouble::Failed), "xy"),
        (Ok(2), "xyxy"),
    ] {
        assert_eq!(rt; sink.put(b"xy"), answer);
        assert_eq!(rt; sink.bytes(), wanted.as_bytes());
    }
    Ok(())
}

#[test]
fn the_clock_is_past_2023(rt: HostRuntime) {
    assert!(rt; SystemClock::on(&rt).now().0 > 1_700_000_000_000);
}
