//! Measures a node whose connections are of a user each: what a row costs where few of them hold its stream and where all do, what an Ask
//! costs, and what a beat costs behind connections that are over. It writes what each run came to on standard output, which is the same at
//! each run, and the times on standard error.
//!
//! With the words `deliveries N`, `logged N` or `visits N` it makes one run instead, whose memory is then asked for: N deliveries on a node
//! without a log or with one, or N connections that come and go.
#![tactic(auto)]

mod beats;
mod books;
mod memory;
mod messages;
mod nodes;
mod rooms;
mod stops;
mod turns;

ghost use Rattle.std.specs.Prelude.{◌≡◌, ◌<◌};

use crate::memory::Run;
use crate::rooms::Room;
use crate::stops::Stop;
use cable_base::Steps;
use std::alloc::Global;
use std::io::Eprint;
use std::marker::Brand;
use std::process::ExitCode;
use std::sync::ledger::{Blank, Ledger};
use std::time::Clock;
use std::{env, io};

/// The rooms that are measured: how many connections there are, how many hold the room, how many rows come, and of how many bytes each.
const ROOMS: [Room; 6] = [
    Room {
        conns: 10,
        holders: 10,
        rows: 100,
        bytes: 10,
    },
    Room {
        conns: 1_000,
        holders: 10,
        rows: 100,
        bytes: 10,
    },
    Room {
        conns: 1_000,
        holders: 1_000,
        rows: 100,
        bytes: 10,
    },
    Room {
        conns: 10,
        holders: 10,
        rows: 100,
        bytes: 20_000,
    },
    Room {
        conns: 1_000,
        holders: 10,
        rows: 100,
        bytes: 20_000,
    },
    Room {
        conns: 1_000,
        holders: 1_000,
        rows: 5,
        bytes: 20_000,
    },
];

/// Measures the times of all rooms and beats.
fn measure_times<R: Print + Eprint + Clock, L: Ledger>(
    rt: &R,
    alloc: Global,
    steps: &mut Steps<L>,
) -> Result<(), Stop> {
    for room in ROOMS {
        rooms::measure(rt, alloc, steps, room)?;
    }
    for over in [0, 100_000] {
        beats::measure(rt, alloc, over)?;
    }
    Ok(())
}

/// Makes the run that the words ask for, or measures the times where there are none.
fn run<R: Print + Eprint + Clock, L: Ledger>(
    rt: &R,
    alloc: Global,
    words: &[String],
    blank: Blank,
) -> Result<(), Stop>
    requires name { blank.name ≡ L.name }
    requires parts { blank.parts ≡ L.parts }
    requires some { 0 < blank.parts }
{
    let mut steps = Steps::<L>::begin(blank);
    if words.is_empty() {
        return measure_times(rt, alloc, &mut steps);
    }
    match Run::of(words) {
        Some(run) => memory::measure(rt, alloc, &mut steps, run),
        None => Err(Stop::Refused),
    }
}

/// The words behind the program's name.
fn words(rt: &HostRuntime) -> io::Result<Vec<String>> {
    let mut words = Vec::new(rt.alloc());
    for word in env::args(rt)?.skip(1) {
        words.push(word)?;
    }
    Ok(words)
}

fn main(rt: HostRuntime) -> ExitCode {
    let Ok(words) = words(&rt) else {
        return ExitCode::FAILURE;
    };
    match run::<HostRuntime, Brand>(&rt, rt.alloc(), &words, Blank::new(1)) {
        Ok(()) => ExitCode::SUCCESS,
        Err(_) => ExitCode::FAILURE,
    }
}
