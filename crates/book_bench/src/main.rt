//! Measures a channel book: what reading it costs a channel, and what an answer costs, where the channels are few and where they are
//! many. It writes what each run came to on standard output, which is the same at each run, and the times on standard error.
#![tactic(auto)]

ghost use Rattle.std.specs.Prelude.{◌<◌};

use channel_book::{Book, BookFault, CallFault, Callbacks};
use std::alloc::{AllocError, Global};
use std::io;
use std::io::Eprint;
use std::process::ExitCode;
use std::time::{Clock, Instant};

/// How many answers a run asks for.
const ANSWERS: u64 = 20_000;

/// Why a run ended early.
#[derive(Debug, Drop)]
enum Stop {
    OutOfMemory,
    Book(BookFault),
    Call(CallFault),
    Io(io::Error),
}

impl From<AllocError> for Stop {
    fn from(_e: AllocError) -> Stop {
        Stop::OutOfMemory
    }
}

impl From<BookFault> for Stop {
    fn from(e: BookFault) -> Stop {
        Stop::Book(e)
    }
}

impl From<CallFault> for Stop {
    fn from(e: CallFault) -> Stop {
        Stop::Call(e)
    }
}

impl From<io::Error> for Stop {
    fn from(e: io::Error) -> Stop {
        Stop::Io(e)
    }
}

/// Puts a channel with ten actions.
fn put_channel(alloc: Global, text: &mut String, channel: u64) -> Result<(), AllocError> {
    let head = format!(in alloc;
        "{{\"name\":\"C{channel}\",\"requires\":[\"room\"],\"actions\":[{{\"name\":\"a0\"}}"
    )?;
    text.push_str(head.as_str())?;
    for action in 1..10u64 {
        let action = format!(in alloc;
            ",{{\"name\":\"a{action}\",\"casts\":[\"room_{{room}}\"]}}"
        )?;
        text.push_str(action.as_str())?;
    }
    text.push_str("]}")
}

/// The text of a book with so many channels and one more.
fn book_text(alloc: Global, channels: u64) -> Result<String, AllocError> {
    let mut text = String::from_str(alloc, "{\"channels\":[")?;
    for channel in 0..channels {
        put_channel(alloc, &mut text, channel)?;
        text.push_str(",")?;
    }
    text.push_str("{\"name\":\"last\"}]}")?;
    Ok(text)
}

/// Whether the last action of a channel makes one broadcast.
fn casts_once(alloc: Global, book: &Book, channel: u64, room: u64) -> Result<bool, Stop> {
    let identifier = format!(in alloc; "{{\"channel\":\"C{channel}\",\"room\":{room}}}")?;
    let answer = book.perform(alloc, "alice", identifier.as_str(), "{\"action\":\"a9\"}")?;
    Ok(answer.casts.as_slice().len() == 1)
}

/// Each answer is of another channel than the one before. The result is how many made one broadcast, up to the first that didn't.
fn ask(alloc: Global, book: &Book, channels: u64) -> Result<u64, Stop>
    requires { 0 < channels }
{
    for turn in 0..ANSWERS {
        if !casts_once(alloc, book, turn * 7919 % channels, turn)? {
            return Ok(turn);
        }
    }
    Ok(ANSWERS)
}

/// Tells what each of these took since the start.
fn tell<R: Eprint + Clock>(
    rt: &R,
    what: &str,
    channels: u64,
    start: Instant,
    times: u64,
) -> io::Result<()>
    requires { 0 < times }
{
    let nanos = start.elapsed(rt)?.as_nanos() / u128::from(times);
    eprintln!(rt; "{channels} channels: {nanos} ns {what}")
}

fn measure<R: Print + Eprint + Clock>(rt: &R, alloc: Global, channels: u64) -> Result<(), Stop>
    requires { 0 < channels }
{
    let text = book_text(alloc, channels)?;
    let start = Instant::now(rt)?;
    let book = Book::read(alloc, text.as_str())?;
    tell(rt, "a channel to read", channels, start, channels)?;

    let start = Instant::now(rt)?;
    let answers = ask(alloc, &book, channels)?;
    tell(rt, "an answer", channels, start, ANSWERS)?;
    println!(rt; "{channels} channels: {answers} answers made one broadcast each")?;
    Ok(())
}

fn main(rt: HostRuntime) -> ExitCode {
    for channels in [1_000, 2_000, 4_000, 8_000, 16_000] {
        if measure(&rt, rt.alloc(), channels).is_err() {
            return ExitCode::FAILURE;
        }
    }
    ExitCode::SUCCESS
}
