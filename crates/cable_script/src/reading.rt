ghost use Rattle.std.specs.Prelude.{◌≡◌, option_map};
ghost use Rattle.cable_script.specs.Reading.{Gives, verb_with, verb_alone, verb_in, text_of, verb_of};

use crate::connections::{drop_in, finish_in, open_in, put_in, take_in, text_in, work_in};
use crate::faults::LineFault;
use crate::nodes::{ask_in, beat_in, boot_in, deliver_in, poll_in, read_in, stop_in};
use crate::tables::{cast_in, trim_in};
use crate::verb_names::verb_named;
use crate::words::cut_word;
use cable_model::{Event, Verb, VerbName};
use std::alloc::Global;

/// The verb with this text behind its blank.
fn verb_with(alloc: Global, name: VerbName, text: &str) -> Result<Verb, LineFault>
    ensures { Gives result (verb_with name text.now) }
{
    match name {
        VerbName::Boot => boot_in(text),
        VerbName::Open => open_in(alloc, text),
        VerbName::In => text_in(alloc, text),
        VerbName::Drop => drop_in(text),
        VerbName::Stop => stop_in(text),
        VerbName::Take => take_in(text),
        VerbName::Put => put_in(text),
        VerbName::Finish => finish_in(text),
        VerbName::Work => work_in(text),
        VerbName::Cast => cast_in(alloc, text),
        VerbName::Trim => trim_in(text),
        VerbName::Ask => ask_in(text),
        VerbName::Read => read_in(text),
        VerbName::Deliver => deliver_in(text),
        VerbName::Poll => poll_in(text),
        VerbName::Beat => beat_in(text),
        VerbName::Fault => Err(LineFault::BadWords),
    }
}

/// The verb without a blank behind it.
fn verb_alone(name: VerbName) -> Result<Verb, LineFault>
    ensures { Gives result (verb_alone name) }
{
    match name {
        VerbName::Fault => Ok(Verb::One {
            event: Event::Fault,
        }),
        _ => Err(LineFault::BadWords),
    }
}

fn verb_in(alloc: Global, line: &str) -> Result<Verb, LineFault>
    ensures { Gives result (verb_in line.now) }
{
    let (word, text) = cut_word(line);
    let Some(name) = verb_named(word) else {
        return Err(LineFault::UnknownVerb);
    };
    match text {
        Some(text) => verb_with(alloc, name, text),
        None => verb_alone(name),
    }
}

/// The text of a line, where it is UTF-8.
pub fn utf8_text(line: &[u8]) -> Option<&str>
    ensures { option_map (λ s. s.now) result ≡ text_of line.now }
{
    str::from_utf8(line).ok()
}

/// The verb that a line of a session script behind its book stands for. The line is given without its line feed.
///
/// The rules are tried in the order of `LineFault`, and the first that is broken is answered: all words are counted before a
/// number is looked at, numbers come before JSON and JSON before sizes. The payload of a cast is its JSON without white space.
/// How long a line may be is its caller's to test.
pub fn read_line(alloc: Global, line: &[u8]) -> Result<Verb, LineFault>
    ensures { Gives result (verb_of line.now) }
{
    match utf8_text(line) {
        Some(text) => verb_in(alloc, text),
        None => Err(LineFault::NotUtf8),
    }
}
