use cable_base::{Millis, RowId};
use trimmer::Policy;

#[test]
fn rows_after_which_a_trim_is_due(rt: HostRuntime) {
    let usual = Policy::usual();
    assert!(rt; usual.due(RowId(50)));
    assert!(rt; usual.due(RowId(100)));
    assert!(rt; !usual.due(RowId(49)));
    assert_eq!(rt; (usual.batch, usual.retention), (100, Millis(86_400_000)));

    // With 0 no trim is ever due.
    let never = Policy { every: 0, ..usual };
    assert!(rt; !never.due(RowId(50)));
    assert!(rt; !never.due(RowId(0)));
}
