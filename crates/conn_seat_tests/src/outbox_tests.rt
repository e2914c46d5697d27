use cable_base::{OutOfMemory, Text};
use cable_model::Note;
use conn_seat::{Out, Outbox};
use std::alloc::Global;
use std::test::Fail;

/// A call of what is queued on a connection, with what it has to answer.
#[derive(Clone, Copy)]
enum Act {
    /// Makes room for so many, or is refused.
    Reserves(u64, bool),
    /// Queues a text, in room that is made for it.
    Says(&'static str),
    Notes(Note),
    /// Queues a text and a note at once.
    SaysAndNotes(&'static str, Note),
    /// This text was queued first, and is taken out.
    Hears(&'static str),
    Reads(Note),
    /// Nothing is queued, and nothing is taken out.
    IsSilent,
    HasSome,
    HasTaken(u64),
    /// Keeps what is left of it once it is forgotten, where nothing is queued.
    Forgets(bool),
    IsForgotten(bool),
}

/// Queues one.
fn puts(outbox: &mut Outbox, out: Out) -> Result<bool, OutOfMemory> {
    outbox.reserve(1)?;
    outbox.put(out);
    Ok(true)
}

fn says(outbox: &mut Outbox, alloc: Global, text: &str) -> Result<bool, OutOfMemory> {
    puts(outbox, Out::Text(Text::new(alloc, text)?))
}

fn both(alloc: Global, text: &str, note: Note) -> Result<Vec<Out>, OutOfMemory> {
    let mut outs = Vec::new(alloc);
    outs.push(Out::Text(Text::new(alloc, text)?))?;
    outs.push(Out::Note(note))?;
    Ok(outs)
}

/// Queues these.
fn puts_all(outbox: &mut Outbox, outs: Vec<Out>) -> Result<bool, OutOfMemory> {
    outbox.reserve(outs.len() as u64)?;
    outbox.put_all(outs);
    Ok(true)
}

fn hears(outbox: &mut Outbox, text: &str) -> bool {
    match outbox.take_out() {
        Some(Out::Text(said)) => said.as_str() == text,
        Some(Out::Note(_)) | None => false,
    }
}

fn reads(outbox: &mut Outbox, note: Note) -> bool {
    match outbox.take_out() {
        Some(Out::Note(noted)) => noted == note,
        Some(Out::Text(_)) | None => false,
    }
}

fn forgets(outbox: &mut Outbox, alloc: Global) -> bool {
    if !outbox.is_empty() {
        return false;
    }
    *outbox = Outbox::forgotten(alloc, outbox.taken());
    true
}

/// Makes a call, and tells whether it answers what it has to.
fn does(outbox: &mut Outbox, alloc: Global, act: Act) -> Result<bool, OutOfMemory> {
    match act {
        Act::Reserves(more, done) => Ok(outbox.reserve(more).is_ok() == done),
        Act::Says(text) => says(outbox, alloc, text),
        Act::Notes(note) => puts(outbox, Out::Note(note)),
        Act::SaysAndNotes(text, note) => puts_all(outbox, both(alloc, text, note)?),
        Act::Hears(text) => Ok(hears(outbox, text)),
        Act::Reads(note) => Ok(reads(outbox, note)),
        Act::IsSilent => Ok(outbox.is_empty() && outbox.take_out().is_none()),
        Act::HasSome => Ok(!outbox.is_empty()),
        Act::HasTaken(count) => Ok(outbox.taken() == count),
        Act::Forgets(done) => Ok(forgets(outbox, alloc) == done),
        Act::IsForgotten(is_so) => Ok(outbox.is_forgotten() == is_so),
    }
}

/// The place of the first call that answers something else, where nothing was queued before.
fn first_fault(alloc: Global, acts: &[Act]) -> Result<Option<usize>, OutOfMemory> {
    let mut outbox = Outbox::empty(alloc);
    for (place, act) in acts.iter().enumerate() {
        if !does(&mut outbox, alloc, *act)? {
            return Ok(Some(place));
        }
    }
    Ok(None)
}

#[test]
fn takes_out_in_order(rt: HostRuntime) -> Result<(), Fail> {
    let acts = [
        Act::IsSilent,
        Act::Says("one"),
        Act::Notes(Note::BadJson),
        Act::HasSome,
        Act::SaysAndNotes("two", Note::Busy),
        Act::Hears("one"),
        Act::Reads(Note::BadJson),
        Act::Hears("two"),
        Act::HasSome,
        Act::Reads(Note::Busy),
        Act::IsSilent,
    ];
    assert_eq!(rt; first_fault(rt.alloc(), acts.as_slice())?, None);
    Ok(())
}

/// One was taken out, so that so many more would pass the end of a `u64`.
#[test]
fn makes_no_endless_room(rt: HostRuntime) -> Result<(), Fail> {
    let acts = [
        Act::Says("one"),
        Act::Hears("one"),
        Act::Reserves(u64::MAX, false),
        Act::Reserves(3, true),
        Act::Reserves(0, true),
        Act::IsSilent,
    ];
    assert_eq!(rt; first_fault(rt.alloc(), acts.as_slice())?, None);
    Ok(())
}

#[test]
fn is_forgotten_when_empty(rt: HostRuntime) -> Result<(), Fail> {
    let acts = [
        Act::Says("one"),
        Act::Forgets(false),
        Act::IsForgotten(false),
        Act::HasTaken(0),
        Act::Hears("one"),
        Act::Forgets(true),
        Act::IsForgotten(true),
        Act::HasTaken(1),
        Act::IsSilent,
        Act::Says("two"),
        Act::Hears("two"),
        Act::HasTaken(2),
        Act::IsForgotten(true),
    ];
    assert_eq!(rt; first_fault(rt.alloc(), acts.as_slice())?, None);
    Ok(())
}
