ghost use Rattle.std.specs.Prelude.{◌≡◌, ◌≤◌, ◌+◌, ◌++◌, ◌^◌, ◌<◌, List, ℕ, length, option_to_list, IfOk, OnOk};
ghost use Rattle.cable_model.specs.Connection.{among};
ghost use Rattle.cable_model.specs.Plans.{unstopped, stream_note, new_stream, new_streams, stream_notes};

use crate::names::is_reserved;
use cable_base::{Listed, MOST_NAME, MOST_STREAMS, Name, OutOfMemory};
use cable_model::Note;
use std::alloc::Global;

/// The streams that a callback asks for, as they are walked: those that become new wants, and the notes of the bad ones.
#[derive(Debug, Drop)]
pub struct Walk {
    pub wanted: Listed<Name>,
    pub notes: Listed<Note>,
}

/// Whether the name is one of these.
pub fn among(names: &[Name], name: &str) -> bool
    ensures { result ≡ among names.now name.now }
{
    names.iter().any(|n| n.as_str() == name)
}

/// How many of the streams are left once the stops have ended.
fn left_count(streams: &[Name], stops: &[Name]) -> usize
    ensures count { result ≡ length (unstopped stops.now streams.now) }
    ensures few { result ≤ length streams.now }
{
    streams
        .iter()
        .filter(|name| !among(stops, name.as_str()))
        .count()
}

/// Whether the name is one of the streams that are left once the stops have ended, or of those that were wanted since.
#[tactic(auto, using(crate::proofs::Known::among_known))]
fn is_known(name: &str, streams: &[Name], stops: &[Name], wanted: &[Name]) -> bool
    ensures { result ≡ among (unstopped stops.now streams.now ++ wanted.now) name.now }
{
    (among(streams, name) && !among(stops, name)) || among(wanted, name)
}

/// Why the stream is bad, if it is, where so many streams are known and this may be one of them.
fn stream_note(name: &str, is_known: bool, known_count: usize) -> Option<Note>
    ensures { (known : List (List ℕ)) → among known name.now ≡ is_known → length known ≡ known_count → result ≡ stream_note known name.now }
{
    if is_reserved(name) {
        Some(Note::ReservedStream)
    } else if name.len() > MOST_NAME {
        Some(Note::NameTooLong)
    } else if !is_known && known_count >= MOST_STREAMS {
        Some(Note::TooManyStreams)
    } else {
        None
    }
}

impl Walk {
    /// Walks one stream, where these many streams are left once the stops have ended.
    fn step(
        &mut self,
        alloc: Global,
        name: &Name,
        streams: &[Name],
        stops: &[Name],
        left: usize,
    ) -> Result<(), OutOfMemory>
        requires left { left ≡ length (unstopped stops.now streams.now) }
        requires few { left + length self.old.wanted < 2 ^ 64 }
        ensures wanted { OnOk result (self.new.wanted ≡ self.old.wanted ++ new_stream (unstopped stops.now streams.now ++ self.old.wanted) name.now) }
        ensures notes { OnOk result (self.new.notes ≡ self.old.notes
            ++ option_to_list (stream_note (unstopped stops.now streams.now ++ self.old.wanted) name.now)) }
    {
        let is_known = is_known(name.as_str(), streams, stops, self.wanted.as_slice());
        let known_count = left + self.wanted.as_slice().len();
        match stream_note(name.as_str(), is_known, known_count) {
            Some(note) => self.notes.push(note),
            None => {
                if is_known {
                    return Ok(());
                }
                self.wanted.push(name.copy(alloc)?)
            }
        }
    }
}

/// Walks the streams that were asked for, of a subscription with these streams, some of which stop.
pub fn walk_streams(
    alloc: Global,
    asked: &[Name],
    streams: &[Name],
    stops: &[Name],
) -> Result<Walk, OutOfMemory>
    ensures wanted { IfOk result (λ w. w.wanted ≡ new_streams (unstopped stops.now streams.now) asked.now) }
    ensures notes { IfOk result (λ w. w.notes ≡ stream_notes (unstopped stops.now streams.now) asked.now) }
{
    let left = left_count(streams, stops);
    let mut walk = Walk {
        wanted: Listed::empty(alloc),
        notes: Listed::empty(alloc),
    };
    for name in asked {
        walk.step(alloc, name, streams, stops, left)?;
    }
    Ok(walk)
}
