use cable_base::{Name, RowId, WantNo};
use std::test::Fail;
use stream_set::{StreamEntry, StreamSet};

#[test]
fn wants_a_name_once(rt: HostRuntime) -> Result<(), Fail> {
    let mut set = StreamSet::empty(rt.alloc());
    assert!(rt; set.entries().is_empty());
    assert!(rt; set.want("a", WantNo(1))?);
    assert!(rt; !set.want("a", WantNo(2))?);
    assert_eq!(rt; set.held("a"), None);
    assert!(rt; set.place(WantNo(1), RowId(5)));
    assert_eq!(rt; set.held("a"), Some(RowId(5)));
    assert_eq!(rt; set.stop("a"), Some(WantNo(1)));
    assert_eq!(rt; set.stop("a"), None);
    assert_eq!(rt; set.held("a"), None);
    set.reserve(1)?;
    assert!(rt; set.want_kept(Name::new(rt.alloc(), "b")?, WantNo(3)));
    Ok(())
}

#[test]
fn leaves_other_streams_alone(rt: HostRuntime) -> Result<(), Fail> {
    let mut set = StreamSet::empty(rt.alloc());
    assert!(rt; set.want("a", WantNo(1))?);
    assert!(rt; set.want("b", WantNo(2))?);
    assert!(rt; set.place(WantNo(2), RowId(5)));
    assert!(rt; !set.place(WantNo(2), RowId(6)));
    assert!(rt; !set.place(WantNo(3), RowId(6)));
    assert_eq!(rt; set.held("a"), None);
    assert_eq!(rt; set.held("b"), Some(RowId(5)));
    assert_eq!(rt; set.held("c"), None);
    assert_eq!(rt; set.stop("a"), Some(WantNo(1)));
    let second = StreamEntry {
        name: Name::new(rt.alloc(), "b")?,
        want: WantNo(2),
        mark: Some(RowId(5)),
    };
    assert_eq!(rt; set.entries().get(0), Some(&second));
    assert_eq!(rt; set.entries().len(), 1);
    set.stop_all();
    assert!(rt; set.entries().is_empty());
    Ok(())
}
