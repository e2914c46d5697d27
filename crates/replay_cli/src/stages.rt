ghost use Rattle.std.specs.Prelude.{◌≡◌, ◌++◌, All, Ok, IsSome, IfOk, IfErr, OnOk};
ghost use Rattle.serde_json.specs.Read.{read};
ghost use Rattle.cable_base.specs.Squeeze.{squeezed};
ghost use Rattle.channel_book.specs.Books.{book_of};
ghost use Rattle.cable_model.specs.Breaks.{GoodLines, BreaksBook, IsBegun, next_number};
ghost use Rattle.cable_model.specs.Breaks.GoodLines.{Nothing, Header, Session};
ghost use Rattle.cable_model.specs.Script.{Script, book_line};
ghost use Rattle.cable_model.specs.Transcript.{ended};
ghost use Rattle.node_world.specs.Steps.{IsPlayed};
ghost use Rattle.replay_cli.specs.declared.stages.Stage.TheVariants as stages;
ghost use Rattle.replay_cli.specs.Stages.{IsAt, LineDoes, TakesLine, IsRefused, NamesBook, IsNoBook, IsLineOf, IsBroken, WorksAs, refusal_of};

use crate::modes::Mode;
use crate::printing::{push_ended, push_events};
use crate::running::{Tally, more, run_events};
use cable_base::{OutOfMemory, squeeze, squeezing_keeps_the_value};
use cable_model::{BreakReason, Event, Status};
use cable_script::{
    LineFault, cut_word, expand, lines_are_read, lines_have_their_first_fault, read_line, utf8_text,
};
use channel_book::{Book, BookFault};
use node_world::World;
use std::alloc::Global;

const HEADER: &[u8] = b"cable-script 1";

/// What is done with the lines behind the book.
#[derive(Debug, Drop)]
pub enum Work {
    /// Their events are stepped in this world, and counted.
    Run { world: World, tally: Tally },
    /// Their events are printed.
    Print,
}

/// Where a script stands: which line comes next.
#[derive(Debug, Drop)]
pub enum Stage {
    Header,
    Book,
    /// A line of this number, counted from 1.
    Lines { next: u64, work: Work },
}

impl Stage {
    /// The number of the line that comes next, counted from 1.
    pub fn next_number(&self) -> u64
        ensures { (mode : Mode) (lines : GoodLines) → IsAt mode lines self.now → result ≡ next_number lines }
    {
        match self {
            Stage::Header => 1,
            Stage::Book => 2,
            Stage::Lines { next, .. } => *next,
        }
    }
}

/// Takes the first line: it must be the header.
fn take_header(mode: Mode, line: &[u8], out: &mut Vec<u8>) -> Result<(), Status>
    ensures takes { OnOk result (TakesLine mode Nothing line.now stages.Book out.old.items out.new.items) }
    ensures refuses { IfErr result (IsRefused Nothing line.now out.old.items out.new.items) }
{
    if line != HEADER {
        let reason = match utf8_text(line) {
            Some(_) => BreakReason::NoHeader,
            None => BreakReason::NotUtf8,
        };
        return Err(Status::BadScript { line: 1, reason });
    }
    if mode == Mode::Print {
        push_ended(out, HEADER)?;
    }
    Ok(())
}

/// The text of the book, where the second line is a line of one.
fn book_text(line: &[u8]) -> Result<&str, BreakReason>
    ensures names { IfOk result (λ text. NamesBook line.now text.now) }
    ensures breaks { IfErr result (λ why. BreaksBook why line.now) }
{
    let Some(line) = utf8_text(line) else {
        return Err(BreakReason::NotUtf8);
    };
    let (word, text) = cut_word(line);
    if word != "book" {
        return Err(BreakReason::NoBook);
    }
    text.ok_or(BreakReason::NoBook)
}

/// The book of a text.
fn read_book(alloc: Global, text: &str) -> Result<Book, Status>
    ensures reads { IfOk result (λ book. book_of text.now ≡ Ok book) }
    ensures refuses { IfErr result (IsNoBook text.now) }
{
    match Book::read(alloc, text) {
        Ok(book) => Ok(book),
        Err(BookFault::OutOfMemory) => Err(Status::OutOfMemory),
        Err(fault) => Err(Status::BadBook { fault }),
    }
}

/// Prints the line of a book, without white space.
fn print_book(alloc: Global, text: &str, out: &mut Vec<u8>) -> Result<(), OutOfMemory>
    requires { IsSome (read text.now) }
    ensures { OnOk result (out.new.items ≡ out.old.items ++ ended (book_line (squeezed text.now))) }
{
    let text = squeeze(alloc, text)?;
    out.extend_from_slice(b"book ")?;
    push_ended(out, text.as_str().as_bytes())
}

/// Takes the second line: it must be the line of a book. Gives what is done with the lines behind it.
fn take_book(alloc: Global, mode: Mode, line: &[u8], out: &mut Vec<u8>) -> Result<Work, Status>
    requires { IsBegun line.now }
    ensures takes { IfOk result (λ work. TakesLine mode Header line.now (stages.Lines 3 work) out.old.items out.new.items) }
    ensures refuses { IfErr result (IsRefused Header line.now out.old.items out.new.items) }
{
    let text = match book_text(line) {
        Ok(text) => text,
        Err(reason) => return Err(Status::BadScript { line: 2, reason }),
    };
    let book = read_book(alloc, text)?;
    if mode == Mode::Print {
        print_book(alloc, text, out)?;
        return Ok(Work::Print);
    }
    Ok(Work::Run {
        world: World::make(alloc, book)?,
        tally: Tally::empty(),
    })
}

/// How a line of this number with this fault is refused.
fn refusal(line: u64, fault: LineFault) -> Status
    ensures { result ≡ refusal_of line fault }
{
    let reason = match fault {
        LineFault::NotUtf8 => BreakReason::NotUtf8,
        LineFault::UnknownVerb => BreakReason::UnknownVerb,
        LineFault::BadWords => BreakReason::BadWords,
        LineFault::BadNumber => BreakReason::BadNumber,
        LineFault::BadJson => BreakReason::BadJson,
        LineFault::TooLarge => BreakReason::TooLarge,
        LineFault::OutOfMemory => return Status::OutOfMemory,
    };
    Status::BadScript { line, reason }
}

/// The events of a line behind the book, which has this number.
fn line_events(alloc: Global, number: u64, line: &[u8]) -> Result<Vec<Event>, Status>
    requires { IsBegun line.now }
    ensures reads { IfOk result (λ events. IsLineOf line.now events.items) }
    ensures refuses { IfErr result (IsBroken number line.now) }
{
    // The laws that the contract stands on.
    squeezing_keeps_the_value();
    lines_are_read();
    lines_have_their_first_fault();
    match read_line(alloc, line) {
        Ok(verb) => Ok(expand(alloc, &verb)?),
        Err(fault) => Err(refusal(number, fault)),
    }
}

/// Runs or prints the events of a line.
fn work_events(
    alloc: Global,
    work: &mut Work,
    events: &[Event],
    out: &mut Vec<u8>,
) -> Result<(), OutOfMemory>
    requires { All IsPlayed events.now }
    ensures { OnOk result (WorksAs events.now work.old work.new out.old.items out.new.items) }
{
    match work {
        Work::Run { world, tally } => run_events(alloc, world, events, out, tally),
        Work::Print => push_events(alloc, out, events),
    }
}

/// Takes a line behind the book.
fn take_further(
    alloc: Global,
    next: &mut u64,
    work: &mut Work,
    line: &[u8],
    out: &mut Vec<u8>,
) -> Result<(), Status>
    requires { IsBegun line.now }
    ensures { (mode : Mode) (s : Script) → IsAt mode (Session s) (stages.Lines next.old work.old)
        → LineDoes mode (Session s) line.now (stages.Lines next.new work.new) out.old.items out.new.items result }
{
    let behind = more(*next, 1)?;
    let events = line_events(alloc, *next, line)?;
    work_events(alloc, work, &events, out)?;
    *next = behind;
    Ok(())
}

/// Takes a whole line, given without its line feed: works it, and writes what is to be written for it behind the text. Where it breaks the
/// rules of its place nothing comes of it.
pub fn take_line(
    alloc: Global,
    mode: Mode,
    stage: &mut Stage,
    line: &[u8],
    out: &mut Vec<u8>,
) -> Result<(), Status>
    requires { IsBegun line.now }
    ensures { (lines : GoodLines) → IsAt mode lines stage.old → LineDoes mode lines line.now stage.new out.old.items out.new.items result }
{
    match stage {
        Stage::Header => {
            take_header(mode, line, out)?;
            *stage = Stage::Book;
            Ok(())
        }
        Stage::Book => {
            let work = take_book(alloc, mode, line, out)?;
            *stage = Stage::Lines { next: 3, work };
            Ok(())
        }
        Stage::Lines { next, work } => take_further(alloc, next, work, line, out),
    }
}
