ghost use Rattle.std.specs.Prelude.{◌≡◌, ◌++◌, IfOk, OnOk, string_bytes};
ghost use Rattle.cable_model.specs.Printed.{printed_events};
ghost use Rattle.cable_model.specs.Transcript.{ended, end_line, lines_text, totals_line};
ghost use Rattle.replay_cli.specs.Modes.{tail_lines};

use crate::modes::Mode;
use crate::running::Tally;
use cable_base::OutOfMemory;
use cable_model::{Event, Line, Totals};
use cable_script::{print_event, print_line};
use std::alloc::Global;

/// Puts these bytes and a line feed behind the text.
pub fn push_ended(out: &mut Vec<u8>, bytes: &[u8]) -> Result<(), OutOfMemory>
    ensures { OnOk result (out.new.items ≡ out.old.items ++ ended bytes.now) }
{
    out.extend_from_slice(bytes)?;
    out.push(b'\n')?;
    Ok(())
}

/// Puts these lines of a transcript behind the text.
pub fn push_lines(alloc: Global, out: &mut Vec<u8>, lines: &[Line]) -> Result<(), OutOfMemory>
    ensures { OnOk result (out.new.items ≡ out.old.items ++ lines_text lines.now) }
{
    for line in lines {
        let text = print_line(alloc, line)?;
        push_ended(out, text.as_str().as_bytes())?;
    }
    Ok(())
}

/// Puts the lines of these events behind the text.
pub fn push_events(alloc: Global, out: &mut Vec<u8>, events: &[Event]) -> Result<(), OutOfMemory>
    ensures { OnOk result (out.new.items ≡ out.old.items ++ printed_events events.now) }
{
    for event in events {
        let text = print_event(alloc, event)?;
        push_ended(out, text.as_str().as_bytes())?;
    }
    Ok(())
}

/// The end line, with its line feed.
fn end_text(alloc: Global, events: u64, idle: u64) -> Result<String, OutOfMemory>
    ensures { IfOk result (λ s. string_bytes s ≡ ended (end_line events idle)) }
{
    Ok(format!(in alloc; "end events={} idle={}\n", events, idle)?)
}

/// The totals line, with its line feed.
fn totals_text(alloc: Global, totals: &Totals) -> Result<String, OutOfMemory>
    ensures { IfOk result (λ s. string_bytes s ≡ ended (totals_line totals.now)) }
{
    Ok(format!(in alloc;
        "totals rows={} trimmed={} texts={} notes={}\n",
        totals.rows, totals.trimmed, totals.texts, totals.notes
    )?)
}

/// What stands behind the lines of the events: the end line, and the totals line where it is asked for.
pub fn tail_text(alloc: Global, mode: Mode, tally: &Tally) -> Result<String, OutOfMemory>
    ensures { IfOk result (λ s. string_bytes s ≡ tail_lines mode tally.now.events tally.now.idle tally.now.totals) }
{
    if mode == Mode::Print {
        return Ok(String::new(alloc));
    }
    let mut text = end_text(alloc, tally.events, tally.idle)?;
    if mode == Mode::Totals {
        text.push_str(totals_text(alloc, &tally.totals)?.as_str())?;
    }
    Ok(text)
}
