//! Replays a session script: reads it from standard input line by line, and writes what its events say to standard output.
//!
//! The words are none for the transcript, `--totals` for a line of totals behind it, `--print` for the script again with a line for each event,
//! or `--make SEED COUNT` for the end line and the totals line of a made script.
//!
//! It ends with the code of its status. Of a refusal it prints `cable_replay: ` and the status's text to standard error.
#![tactic(auto)]

use cable_base::{StdSink, StdSource};
use cable_model::Status;
use node_world::World;
use replay_cli::replay;
use std::io::Write;
use std::process::ExitCode;
use std::{env, io};

/// The words behind the program's name.
fn words(rt: &HostRuntime) -> io::Result<Vec<String>> {
    let mut words = Vec::new(rt.alloc());
    for word in env::args(rt)?.skip(1) {
        words.push(word)?;
    }
    Ok(words)
}

/// A word that isn't UTF-8 makes a faulty command line.
fn run(rt: &HostRuntime) -> Status {
    let words = match words(rt) {
        Ok(words) => words,
        Err(error) if error.kind() == io::ErrorKind::OutOfMemory => return Status::OutOfMemory,
        Err(_) => return Status::Usage,
    };
    let mut source = StdSource::on(rt.stdin());
    let mut sink = StdSink::on(rt.stdout());
    let mut world = None;
    let status = replay(rt.alloc(), &words, &mut source, &mut sink, &mut world);
    if let Some(world) = world {
        World::end(world);
    }
    status
}

/// Prints what is said of a refusal. A standard error that can't be written to is passed over.
fn report(rt: &HostRuntime, status: &Status) {
    let mut error = rt.stderr();
    let _ = match status.text(rt.alloc()) {
        Ok(text) => writeln!(error, "cable_replay: {}", text.as_str()),
        Err(_) => writeln!(error, "cable_replay: out-of-memory"),
    };
}

fn main(rt: HostRuntime) -> ExitCode {
    let status = run(&rt);
    if status != Status::Ok {
        report(&rt, &status);
    }
    ExitCode::from(status.code())
}
