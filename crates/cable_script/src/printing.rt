//! What is written: the line of an event, and a line of the transcript.
ghost use Rattle.std.specs.Prelude.{◌≡◌, IfOk, string_bytes};
ghost use Rattle.cable_model.specs.Printed.{event_line};
ghost use Rattle.cable_model.specs.Transcript.{note_text, line_text};

use cable_base::{OutOfMemory, Text};
use cable_model::{Event, Line, Note};
use std::alloc::Global;

/// The line of an event, without a line feed. It is never a line `work` or `poll`.
///
/// Where the event's numbers are in the ranges of a script, its name and payload within the limits, its payload squeezed and none of its
/// texts has a line feed, `read_line` of it stands for exactly this event.
pub fn print_event(alloc: Global, event: &Event) -> Result<Text, OutOfMemory>
    ensures { IfOk result (λ t. t ≡ event_line event.now) }
{
    let line = match event {
        Event::Boot { node } => format!(in alloc; "boot {}", node.0)?,
        Event::Open { node, conn, token } => {
            let token = token.as_str();
            format!(in alloc; "open {} {} {}", node.0, conn.0, token)?
        }
        Event::In { conn, text } => {
            let text = text.as_str();
            format!(in alloc; "in {} {}", conn.0, text)?
        }
        Event::Drop { conn } => format!(in alloc; "drop {}", conn.0)?,
        Event::Stop { node } => format!(in alloc; "stop {}", node.0)?,
        Event::Take { conn } => format!(in alloc; "take {}", conn.0)?,
        Event::Put { conn, at } => format!(in alloc; "put {} {}", conn.0, at.0)?,
        Event::Finish { conn } => format!(in alloc; "finish {}", conn.0)?,
        Event::Cast {
            at,
            channel,
            payload,
        } => {
            let channel = channel.as_str();
            let payload = payload.as_str();
            format!(in alloc; "cast {} {} {}", at.0, channel, payload)?
        }
        Event::Trim {
            now,
            retention,
            batch,
        } => format!(in alloc; "trim {} {} {}", now.0, retention.0, batch)?,
        Event::Ask { node } => format!(in alloc; "ask {}", node.0)?,
        Event::Read { node } => format!(in alloc; "read {}", node.0)?,
        Event::Deliver { node } => format!(in alloc; "deliver {}", node.0)?,
        Event::Beat { node, now } => format!(in alloc; "beat {} {}", node.0, now.0)?,
        Event::Fault => format!(in alloc; "fault")?,
    };
    Ok(Text::of(line)?)
}

/// The text of a note.
fn note_text(note: Note) -> &'static str
    ensures { result.now ≡ note_text note }
{
    match note {
        Note::BadJson => "bad-json",
        Note::UnknownCommand => "unknown-command",
        Note::NoIdentifier => "no-identifier",
        Note::BadData => "bad-data",
        Note::BadIdentifier => "bad-identifier",
        Note::UnknownChannel => "unknown-channel",
        Note::DataNoObject => "data-no-object",
        Note::UnknownAction => "unknown-action",
        Note::UnknownSubscription => "unknown-subscription",
        Note::TooManySubscriptions => "too-many-subscriptions",
        Note::ReservedStream => "reserved-stream",
        Note::NameTooLong => "name-too-long",
        Note::TooManyStreams => "too-many-streams",
        Note::ReservedCast => "reserved-cast",
        Note::PayloadTooLong => "payload-too-long",
        Note::Busy => "busy",
        Note::TooLong => "too-long",
        Note::StoreRefused => "store-refused",
    }
}

/// A line of the transcript, without its line feed.
pub fn print_line(alloc: Global, line: &Line) -> Result<Text, OutOfMemory>
    ensures { IfOk result (λ t. t ≡ line_text line.now) }
{
    let line = match line {
        Line::Text { conn, text } => {
            let text = text.as_str();
            format!(in alloc; "{} {}", conn.0, text)?
        }
        Line::Note {
            conn: Some(conn),
            note,
        } => format!(in alloc; "{} ! {}", conn.0, note_text(*note))?,
        Line::Note { conn: None, note } => format!(in alloc; "- ! {}", note_text(*note))?,
        Line::Row { id } => format!(in alloc; "- row {}", id.0)?,
        Line::Trimmed { count } => format!(in alloc; "- trimmed {}", count)?,
    };
    Ok(Text::of(line)?)
}
