use crate::endless::Endless;
use cable_base::{MemSink, MemSource};
use cable_model::Status;
use replay_cli::replay;
use std::alloc::{AllocError, Global};
use std::test::Fail;

/// 95 bytes: the lines end at 15, 76, 83 and 95.
pub const SCRIPT: &str =
    "cable-script 1\nbook {\"tokens\":{\"t1\":\"alice\"},\"channels\":[{\"name\":\"Plain\"}]}\nboot 1\nopen 1 7 t1\n";

const WELCOME: &str = "7 {\"type\":\"welcome\"}\n";

const WRITTEN: &str = "7 {\"type\":\"welcome\"}\nend events=2 idle=0\n";

/// The status of a replay whose source gives pieces of this length, and of which these calls fail. Whether this is what it wrote, and
/// whether it handed out a world.
fn replays(
    alloc: Global,
    piece: u64,
    failing_read: u64,
    failing_write: u64,
    wanted: &str,
) -> Result<(Status, bool, bool), AllocError> {
    let bytes = SCRIPT.as_bytes().to_vec(alloc)?;
    let mut source = MemSource::new(bytes, piece.max(1), [failing_read].to_vec(alloc)?);
    let mut sink = MemSink::new(alloc, [failing_write].to_vec(alloc)?);
    let mut world = None;
    let status = replay(alloc, &[], &mut source, &mut sink, &mut world);
    Ok((status, sink.bytes() == wanted.as_bytes(), world.is_some()))
}

/// Of a source that fails, the lines that were whole are worked and written.
#[test]
fn scripts_are_replayed_in_any_cut_as_far_as_they_are_read(rt: HostRuntime) -> Result<(), Fail> {
    let alloc = rt.alloc();
    // No call has the number 0.
    for (piece, failing_read, wanted_status, wanted, wanted_world) in [
        (1, 0, Status::Ok, WRITTEN, true),
        (7, 0, Status::Ok, WRITTEN, true),
        (64, 2, Status::ReadFault, "", false),
        (16, 6, Status::ReadFault, "", true),
        (16, 7, Status::ReadFault, WELCOME, true),
    ] {
        let (status, same, has_world) = replays(alloc, piece, failing_read, 0, wanted)?;
        assert_eq!(rt; status, wanted_status, "{piece} {failing_read}");
        assert!(rt; same, "{piece} {failing_read}");
        assert_eq!(rt; has_world, wanted_world, "{piece} {failing_read}");
    }
    Ok(())
}

#[test]
fn write_faults_are_told(rt: HostRuntime) -> Result<(), Fail> {
    let alloc = rt.alloc();
    for (failing_read, failing_write, wanted) in [(0, 1, ""), (0, 2, WELCOME), (7, 1, "")] {
        let (status, same, _) = replays(alloc, 16, failing_read, failing_write, wanted)?;
        assert_eq!(rt;
            status,
            Status::WriteFault,
            "{failing_read} {failing_write}"
        );
        assert!(rt; same, "{failing_read} {failing_write}");
    }
    Ok(())
}

/// A replay that read all of its source first wouldn't end.
#[test]
fn a_sink_that_fails_ends_a_source_without_end(rt: HostRuntime) -> Result<(), Fail> {
    let alloc = rt.alloc();
    let mut sink = MemSink::new(alloc, [1].to_vec(alloc)?);
    let mut world = None;
    let status = replay(alloc, &[], &mut Endless::new(), &mut sink, &mut world);
    assert_eq!(rt; status, Status::WriteFault);
    assert!(rt; sink.bytes().is_empty());
    Ok(())
}
