//! Measures an inbox and a list of ready connections: what a step costs where few wait, and where many do. It writes what each
//! run came to on standard output, which is the same at each run, and the times on standard error.
#![tactic(auto)]

ghost use Rattle.std.specs.Prelude.{◌<◌};

use cable_base::{ConnNo, OutOfMemory, SubNo};
use cable_model::Piece;
use run_queue::{Inbox, Ready};
use std::alloc::Global;
use std::io;
use std::io::Eprint;
use std::process::ExitCode;
use std::time::{Clock, Instant};

/// How many steps a run has.
const STEPS: u64 = 250_007;

/// Why a run ended early.
#[derive(Debug, Drop)]
enum Stop {
    OutOfMemory,
    Io(io::Error),
}

impl From<OutOfMemory> for Stop {
    fn from(_e: OutOfMemory) -> Stop {
        Stop::OutOfMemory
    }
}

impl From<io::Error> for Stop {
    fn from(e: io::Error) -> Stop {
        Stop::Io(e)
    }
}

fn push(inbox: &mut Inbox, sub: u64) -> Result<(), OutOfMemory> {
    let piece = Piece::Confirm { sub: SubNo(sub) };
    match inbox.push(piece) {
        Ok(()) => Ok(()),
        Err(_) => Err(OutOfMemory),
    }
}

/// An inbox in which so many pieces wait.
fn filled_inbox(alloc: Global, waiting: u64) -> Result<Inbox, OutOfMemory> {
    let mut inbox = Inbox::empty(alloc);
    for sub in 0..waiting {
        push(&mut inbox, sub)?;
    }
    Ok(inbox)
}

/// Each step takes the first piece, looks at the one behind it and puts another. The answer is the place of the last one taken.
fn turn_inbox(inbox: &mut Inbox) -> Result<u64, OutOfMemory> {
    let mut last = 0;
    for sub in 0..STEPS {
        if let Some(taken) = inbox.take()
            && inbox.first().is_some()
            && inbox.waiting_commands() == 0
        {
            last = taken.place;
        }
        push(inbox, sub)?;
    }
    Ok(last)
}

/// A list of the numbers below this one.
fn filled_list(alloc: Global, waiting: u64) -> Result<Ready, OutOfMemory> {
    let mut ready = Ready::empty(alloc);
    for conn in 0..waiting {
        ready.put(ConnNo(conn))?;
    }
    Ok(ready)
}

/// Each step takes the first number and puts it behind the others. The answer is the number that is first then.
fn turn_list(ready: &mut Ready) -> Result<u64, OutOfMemory> {
    for _ in 0..STEPS {
        if let Some(conn) = ready.next() {
            ready.put(conn)?;
        }
    }
    Ok(ready.front().map_or(0, |conn| conn.0))
}

/// Each step takes a number out of the middle and puts it behind the others. The answer is the number that is first then.
fn shuffle_list(ready: &mut Ready, waiting: u64) -> Result<u64, OutOfMemory>
    requires { 0 < waiting }
{
    for step in 0..STEPS {
        let conn = ConnNo(step * 7919 % waiting);
        ready.drop_out(conn);
        ready.put(conn)?;
    }
    Ok(ready.front().map_or(0, |conn| conn.0))
}

/// Tells what a step took since the start.
fn tell<R: Eprint + Clock>(rt: &R, name: &str, waiting: u64, start: Instant) -> io::Result<()> {
    let nanos = start.elapsed(rt)?.as_nanos() / u128::from(STEPS);
    eprintln!(rt; "{name} with {waiting} waiting: {nanos} ns a step")
}

fn measure<R: Print + Eprint + Clock>(rt: &R, alloc: Global, waiting: u64) -> Result<(), Stop>
    requires { 0 < waiting }
{
    let mut inbox = filled_inbox(alloc, waiting)?;
    let start = Instant::now(rt)?;
    let last = turn_inbox(&mut inbox)?;
    tell(rt, "inbox", waiting, start)?;
    println!(rt; "inbox with {waiting} waiting: the last piece taken was number {last}")?;

    let mut ready = filled_list(alloc, waiting)?;
    let start = Instant::now(rt)?;
    let first = turn_list(&mut ready)?;
    tell(rt, "ready list", waiting, start)?;
    println!(rt; "ready list with {waiting} waiting: {first} is first")?;

    let start = Instant::now(rt)?;
    let first = shuffle_list(&mut ready, waiting)?;
    tell(rt, "ready list out of the middle", waiting, start)?;
    println!(rt; "ready list out of the middle with {waiting} waiting: {first} is first")?;
    Ok(())
}

fn main(rt: HostRuntime) -> ExitCode {
    for waiting in [1_000, 100_000] {
        if measure(&rt, rt.alloc(), waiting).is_err() {
            return ExitCode::FAILURE;
        }
    }
    ExitCode::SUCCESS
}
