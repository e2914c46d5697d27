//! Measures links over loopback and the bell: how many texts go each way, what it takes for a ring to end a wait, and what links keep that have
//! read. It writes what each run came to on standard output, which is the same at each run, and the times on standard error.
//!
//! The word names what is measured: `texts`, `rings`, and `idle`, `short` or `long` for links that have read no text, one of 100 bytes or one
//! of 60,000. Where there is none, all are, and at `few` all are in small numbers. What links keep is seen from outside, as the greatest
//! resident set of a run with one word.
#![tactic(auto)]

mod ends;
mod links;
mod rings;
mod stops;
mod texts;

use crate::links::Heard;
use crate::stops::Stop;
use crate::texts::Load;
use std::alloc::Global;
use std::io::Eprint;
use std::net::{Net, TcpListener, TcpStream};
use std::process::ExitCode;
use std::random::RandomSource;
use std::sync::Wait;
use std::thread::Threads;
use std::time::Clock;
use std::{env, io};

/// How much is measured.
#[derive(Clone, Copy)]
struct Counts {
    /// The texts that go each way.
    loads: [Load; 2],
    rings: usize,
    links: usize,
}

const MANY: Counts = Counts {
    loads: [
        Load {
            bytes: 100,
            count: 100_000,
        },
        Load {
            bytes: 20_000,
            count: 10_000,
        },
    ],
    rings: 10_000,
    links: 400,
};

const FEW: Counts = Counts {
    loads: [
        Load {
            bytes: 100,
            count: 200,
        },
        Load {
            bytes: 20_000,
            count: 20,
        },
    ],
    rings: 100,
    links: 4,
};

/// What can be measured by itself.
const WORDS: [&str; 5] = ["texts", "rings", "idle", "short", "long"];

/// Measures what a word of these names.
fn measure<
    R: Net<Listener = TcpListener, Stream = TcpStream>
        + Threads
        + Wait
        + Clock
        + Print
        + Eprint
        + RandomSource
        + Clone
        + Drop
        + Send
        + Sync,
>(rt: &R, alloc: Global, word: &str, counts: Counts) -> Result<(), Stop> {
    match word {
        "texts" => {
            for load in counts.loads {
                texts::measure(rt, alloc, load)?;
            }
            Ok(())
        }
        "rings" => rings::measure(rt, alloc, counts.rings),
        "idle" => links::measure(rt, alloc, Heard::Nothing, counts.links),
        "short" => links::measure(rt, alloc, Heard::Short, counts.links),
        "long" => links::measure(rt, alloc, Heard::Long, counts.links),
        _ => Err(Stop::UnknownWord),
    }
}

/// Measures what the words behind the program's name say.
fn run<
    R: Net<Listener = TcpListener, Stream = TcpStream>
        + Threads
        + Wait
        + Clock
        + Print
        + Eprint
        + RandomSource
        + Clone
        + Drop
        + Send
        + Sync,
>(rt: &R, alloc: Global, words: &[String]) -> Result<(), Stop> {
    let counts = match words {
        [] => MANY,
        [word] if word.as_str() == "few" => FEW,
        [word] => return measure(rt, alloc, word.as_str(), MANY),
        _ => return Err(Stop::UnknownWord),
    };
    for word in WORDS {
        measure(rt, alloc, word, counts)?;
    }
    Ok(())
}

/// The words behind the program's name.
fn words(rt: &HostRuntime) -> io::Result<Vec<String>> {
    let mut words = Vec::new(rt.alloc());
    for word in env::args(rt)?.skip(1) {
        words.push(word)?;
    }
    Ok(words)
}

fn main(rt: HostRuntime) -> ExitCode {
    let Ok(words) = words(&rt) else {
        return ExitCode::FAILURE;
    };
    match run(&rt, rt.alloc(), words.as_slice()) {
        Ok(()) => ExitCode::SUCCESS,
        Err(_) => ExitCode::FAILURE,
    }
}
