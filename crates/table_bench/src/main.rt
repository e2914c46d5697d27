//! Measures the table over its keeper in memory: what a read and a trim cost where few rows are kept, and where many are. It writes
//! what each run came to on standard output, which is the same at each run, and the times on standard error.
#![tactic(auto)]

ghost use Rattle.std.specs.Prelude.{◌<◌, ◌≤◌, IfOk};
ghost use Rattle.cable_base.specs.Squeeze.{IsSqueezedJson};

use cable_base::{MOMENT_LIMIT, MOST_PAYLOAD, Millis, NodeNo, OutOfMemory, RowId, Text, squeeze};
use cable_model::Origin;
use poll_turn::{Cursor, channel_hash};
use serde_json::Value;
use std::alloc::{AllocError, Global};
use std::io;
use std::io::Eprint;
use std::process::ExitCode;
use std::time::{Clock, Instant};
use table_core::{MemKeeper, StoreFault, Table};

/// How many steps a run has.
const STEPS: u64 = 20_003;

/// How many rows a read finds.
const FOUND: u64 = 10;

/// Why a run ended early.
#[derive(Debug, Drop)]
enum Stop {
    OutOfMemory,
    Refused,
    Io(io::Error),
}

impl From<OutOfMemory> for Stop {
    fn from(_e: OutOfMemory) -> Stop {
        Stop::OutOfMemory
    }
}

impl From<AllocError> for Stop {
    fn from(_e: AllocError) -> Stop {
        Stop::OutOfMemory
    }
}

impl From<StoreFault> for Stop {
    fn from(_e: StoreFault) -> Stop {
        Stop::Refused
    }
}

impl From<io::Error> for Stop {
    fn from(e: io::Error) -> Stop {
        Stop::Io(e)
    }
}

/// The message that each row has.
fn message(alloc: Global) -> Result<Text, Stop>
    ensures { IfOk result IsSqueezedJson }
{
    let text = "{\"n\":1}";
    match Value::from_str(alloc, text) {
        Ok(_) => Ok(squeeze(alloc, text)?),
        Err(_) => Err(Stop::Refused),
    }
}

fn commit(table: &mut Table<MemKeeper>, message: &str, at: u64) -> Result<(), Stop>
    requires message { IsSqueezedJson message.now }
    requires moment { at < MOMENT_LIMIT }
{
    if message.len() > MOST_PAYLOAD {
        return Err(Stop::Refused);
    }
    table.commit(Origin::Cast, "x", message, Millis(at))?;
    Ok(())
}

/// A table with so many rows. The first one is from moment 1, and each from a millisecond after the one before.
fn filled(alloc: Global, rows: u64) -> Result<Table<MemKeeper>, Stop>
    requires { rows ≤ 100000 }
{
    let message = message(alloc)?;
    let Ok(mut table) = Table::start(alloc, MemKeeper::empty(alloc)) else {
        return Err(Stop::Refused);
    };
    for at in 1..rows + 1 {
        commit(&mut table, message.as_str(), at)?;
    }
    Ok(table)
}

/// Reads the last rows once, and answers how many it found.
fn read_last(alloc: Global, table: &mut Table<MemKeeper>) -> Result<u64, Stop> {
    let lower = RowId(table.last().0.saturating_sub(FOUND));
    let hashes = [channel_hash("x")].to_vec(alloc)?;
    let Some(turn) = Cursor::at(lower).ask(NodeNo(1), hashes) else {
        return Err(Stop::Refused);
    };
    match table.read(turn) {
        Ok(caught) => {
            let found = caught.rows().len() as u64;
            caught.give_up();
            Ok(found)
        }
        Err(turn) => {
            turn.give_up();
            Err(Stop::OutOfMemory)
        }
    }
}

/// Each step reads the last rows. The answer is how many were found in all.
fn read_often(alloc: Global, table: &mut Table<MemKeeper>) -> Result<u64, Stop> {
    let mut found: u64 = 0;
    for _ in 0..STEPS {
        found = found.saturating_add(read_last(alloc, table)?);
    }
    Ok(found)
}

/// Each step trims, where no row is old. The answer is how many were taken in all.
fn trim_none(table: &mut Table<MemKeeper>) -> Result<u64, Stop> {
    let mut taken: u64 = 0;
    for _ in 0..STEPS {
        taken = taken.saturating_add(table.trim(Millis(1), Millis(0), 100)?);
    }
    Ok(taken)
}

/// Each step commits a row and trims, where the first row alone is old. The answer is how many were taken in all.
fn turn_over(alloc: Global, table: &mut Table<MemKeeper>, rows: u64) -> Result<u64, Stop>
    requires { rows ≤ 100000 }
{
    let message = message(alloc)?;
    let mut taken: u64 = 0;
    for step in 1..STEPS + 1 {
        commit(table, message.as_str(), rows + step)?;
        taken = taken.saturating_add(table.trim(Millis(step + 1), Millis(0), 100)?);
    }
    Ok(taken)
}

/// Tells what a step took since the start.
fn tell<R: Eprint + Clock>(rt: &R, name: &str, rows: u64, start: Instant) -> io::Result<()> {
    let nanos = start.elapsed(rt)?.as_nanos() / u128::from(STEPS);
    eprintln!(rt; "{name} with {rows} rows: {nanos} ns a step")
}

fn measure<R: Print + Eprint + Clock>(rt: &R, alloc: Global, rows: u64) -> Result<(), Stop>
    requires { rows ≤ 100000 }
{
    let mut table = filled(alloc, rows)?;
    let start = Instant::now(rt)?;
    let found = read_often(alloc, &mut table)?;
    tell(rt, "read", rows, start)?;
    println!(rt; "read with {rows} rows: {found} were found")?;

    let start = Instant::now(rt)?;
    let taken = trim_none(&mut table)?;
    tell(rt, "trim of none", rows, start)?;
    println!(rt; "trim of none with {rows} rows: {taken} were taken")?;

    let start = Instant::now(rt)?;
    let taken = turn_over(alloc, &mut table, rows)?;
    tell(rt, "commit and trim of one", rows, start)?;
    println!(rt; "commit and trim of one with {rows} rows: {taken} were taken")?;
    Ok(())
}

fn main(rt: HostRuntime) -> ExitCode {
    for rows in [1_000, 10_000, 100_000] {
        if measure(&rt, rt.alloc(), rows).is_err() {
            return ExitCode::FAILURE;
        }
    }
    ExitCode::SUCCESS
}
