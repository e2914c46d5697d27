use crate::stops::Stop;
use bell::Bell;
use std::alloc::Global;
use std::io::Eprint;
use std::sync::Wait;
use std::thread;
use std::thread::Threads;
use std::time::{Clock, Duration, Instant};

/// How many seconds a wait lasts at most before a run is given up.
const LONGEST_WAIT: u64 = 5;

/// The bell that is measured, and the one by which the thread that waits there tells that it is about to.
#[derive(Drop)]
struct Bells {
    ready: Bell,
    bell: Bell,
}

/// Waits until the bell rings, and fails where it doesn't.
fn wait<R: Wait + Clock>(rt: &R, bell: &Bell) -> Result<(), Stop> {
    if bell.wait(rt, Duration::from_secs(LONGEST_WAIT)) {
        Ok(())
    } else {
        Err(Stop::Late)
    }
}

/// Waits for each ring. Answers the moments at which the waits ended.
fn wake<R: Wait + Clock>(
    rt: &R,
    alloc: Global,
    bells: &Bells,
    rings: usize,
) -> Result<Vec<Instant>, Stop> {
    let mut moments = Vec::with_capacity(alloc, rings)?;
    for _ in 0..rings {
        bells.ready.ring(rt);
        wait(rt, &bells.bell)?;
        moments.push(Instant::now(rt)?)?;
    }
    Ok(moments)
}

/// Rings whenever the other thread is about to wait. Answers the moments before the rings.
fn ring<R: Wait + Clock>(
    rt: &R,
    alloc: Global,
    bells: &Bells,
    rings: usize,
) -> Result<Vec<Instant>, Stop> {
    let mut moments = Vec::with_capacity(alloc, rings)?;
    for _ in 0..rings {
        wait(rt, &bells.ready)?;
        moments.push(Instant::now(rt)?)?;
        bells.bell.ring(rt);
    }
    Ok(moments)
}

/// How long each wait lasted from its ring on, in nanoseconds, the shortest first.
fn lasted(alloc: Global, rung: &[Instant], woken: &[Instant]) -> Result<Vec<u128>, Stop> {
    let mut nanos = Vec::new(alloc);
    for (rung, woken) in rung.iter().zip(woken) {
        nanos.push(woken.duration_since(*rung).as_nanos())?;
    }
    nanos.sort_unstable();
    Ok(nanos)
}

/// Measures how long a ring takes to end a wait of another thread.
pub fn measure<R: Threads + Wait + Clock + Print + Eprint + Sync>(
    rt: &R,
    alloc: Global,
    rings: usize,
) -> Result<(), Stop> {
    let bells = Bells {
        ready: Bell::new(1),
        bell: Bell::new(1),
    };
    let (woken, rung) = thread::join(
        rt,
        || wake(rt, alloc, &bells, rings),
        || ring(rt, alloc, &bells, rings),
    );
    let nanos = lasted(alloc, rung?.as_slice(), woken?.as_slice())?;
    let middle = nanos.get(nanos.len() / 2).copied().unwrap_or(0);
    let worst = nanos.last().copied().unwrap_or(0);
    let count = nanos.len();
    eprintln!(rt; "a ring: {middle} ns in the middle, {worst} ns at worst")?;
    println!(rt; "{count} rings ended a wait each")?;
    Ok(())
}
