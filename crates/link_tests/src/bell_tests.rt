use bell::Bell;
use std::alloc::Global;
use std::sync::{Arc, Wait};
use std::test::Fail;
use std::thread;
use std::time::{Clock, Duration};

/// Longer than any wait here that a ring ends.
fn long() -> Duration {
    Duration::from_secs(60)
}

fn short() -> Duration {
    Duration::from_millis(20)
}

#[test]
fn a_ring_before_the_wait_is_kept(rt: HostRuntime) {
    let bell = Bell::new(1);
    assert!(rt; !bell.wait(&rt, short()));
    bell.ring(&rt);
    bell.ring(&rt);
    assert!(rt; bell.wait(&rt, long()));
    assert!(rt; !bell.wait(&rt, short()));
}

#[test]
fn as_many_rings_are_kept_as_wait(rt: HostRuntime) {
    let bell = Bell::new(3);
    bell.ring(&rt);
    bell.ring_all(&rt);
    for _ in 0..3u32 {
        assert!(rt; bell.wait(&rt, long()));
    }
    assert!(rt; !bell.wait(&rt, short()));
}

/// Waits, and answers whether a ring ended it.
fn waits<R: Wait + Clock>(rt: &R, bell: &Arc<Bell, Global>) -> bool {
    bell.wait(rt, long())
}

#[test]
fn a_ring_ends_the_waits_of_other_threads(rt: HostRuntime) -> Result<(), Fail> {
    let bell = Arc::new(rt.alloc(), Bell::new(2))?;
    let (one, other) = (bell.clone()?, bell.clone()?);
    let (here, there) = (rt.clone()?, rt.clone()?);
    let first = thread::spawn(&rt, move || waits(&here, &one))?;
    let second = thread::spawn(&rt, move || waits(&there, &other))?;
    thread::sleep(&rt, short());
    bell.ring_all(&rt);
    assert!(rt; first.join(&rt));
    assert!(rt; second.join(&rt));
    Ok(())
}
