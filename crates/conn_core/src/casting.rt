ghost use Rattle.std.specs.Prelude.{◌≡◌, ◌++◌, [], ◌∷◌, IfOk, OnOk, MatchResult};
ghost use Rattle.channel_book.specs.declared.answers.CallFault.TheVariants as call_fault;
ghost use Rattle.cable_model.specs.Plans.{IsAnswer, cast_note, kept_casts, cast_notes, fault_notes, casts_left, notes_left};
ghost use Rattle.conn_core.specs.Payloads.{AreCommittable};

use crate::names::is_reserved;
use cable_base::{Listed, MOST_NAME, MOST_PAYLOAD, OutOfMemory};
use cable_model::Note;
use channel_book::{CallFault, Callbacks, Cast};
use std::alloc::Global;

/// The broadcasts of a piece as they are walked: those that are kept, the notes of streams and of broadcasts that are dropped, and the
/// notes of faults of `unsubscribed`.
#[derive(Debug, Drop)]
pub struct Casts {
    pub kept: Listed<Cast>,
    pub notes: Listed<Note>,
    pub faults: Listed<Note>,
}

/// Why the broadcast is dropped, if it is.
fn cast_note(cast: &Cast) -> Option<Note>
    ensures { result ≡ cast_note cast.now }
{
    if is_reserved(cast.channel.as_str()) {
        Some(Note::ReservedCast)
    } else if cast.channel.as_str().len() > MOST_NAME {
        Some(Note::NameTooLong)
    } else if cast.payload.as_str().len() > MOST_PAYLOAD {
        Some(Note::PayloadTooLong)
    } else {
        None
    }
}

/// The note of a callback's fault, or want of memory.
pub fn fault_note(fault: CallFault) -> Result<Note, OutOfMemory>
    ensures { MatchResult result (λ note. fault_notes fault ≡ note ∷ []) (λ _. fault ≡ call_fault.OutOfMemory) }
{
    match fault {
        CallFault::BadIdentifier => Ok(Note::BadIdentifier),
        CallFault::UnknownChannel => Ok(Note::UnknownChannel),
        CallFault::BadData => Ok(Note::DataNoObject),
        CallFault::UnknownAction => Ok(Note::UnknownAction),
        CallFault::OutOfMemory => Err(OutOfMemory),
    }
}

impl Casts {
    /// No broadcast yet, behind these notes of streams.
    pub fn behind(alloc: Global, notes: Listed<Note>) -> Casts
        ensures { result ≡ record { kept = []; notes = notes; faults = [] } }
    {
        Casts {
            kept: Listed::empty(alloc),
            notes,
            faults: Listed::empty(alloc),
        }
    }

    /// Walks the broadcasts of an answer.
    pub fn add(&mut self, casts: Listed<Cast>) -> Result<(), OutOfMemory>
        ensures kept { OnOk result (self.new.kept ≡ self.old.kept ++ kept_casts casts) }
        ensures notes { OnOk result (self.new.notes ≡ self.old.notes ++ cast_notes casts) }
        ensures faults { OnOk result (self.new.faults ≡ self.old.faults) }
    {
        for cast in casts.into_items() {
            match cast_note(&cast) {
                Some(note) => self.notes.push(note)?,
                None => self.kept.push(cast)?,
            }
        }
        Ok(())
    }

    /// Calls `unsubscribed`, of whose answer only the broadcasts are used. A fault of it is noted.
    pub fn leave<C: Callbacks>(
        &mut self,
        alloc: Global,
        identifier: &str,
        user: &str,
        callbacks: &C,
    ) -> Result<(), OutOfMemory>
        ensures kept { OnOk result (self.new.kept ≡ self.old.kept
            ++ kept_casts (casts_left ((C.answers callbacks.now).unsubscribed user.now identifier.now))) }
        ensures notes { OnOk result (self.new.notes ≡ self.old.notes
            ++ cast_notes (casts_left ((C.answers callbacks.now).unsubscribed user.now identifier.now))) }
        ensures faults { OnOk result (self.new.faults ≡ self.old.faults ++ notes_left ((C.answers callbacks.now).unsubscribed user.now identifier.now)) }
        ensures rows { OnOk result (AreCommittable (kept_casts (casts_left ((C.answers callbacks.now).unsubscribed user.now identifier.now)))) }
        ensures answered { OnOk result (IsAnswer ((C.answers callbacks.now).unsubscribed user.now identifier.now)) }
    {
        match callbacks.unsubscribed(alloc, user, identifier) {
            Ok(answer) => self.add(answer.casts),
            Err(fault) => self.faults.push(fault_note(fault)?),
        }
    }

    /// The broadcasts that are kept, and the notes in their order: those of faults stand last.
    pub fn into_parts(self) -> Result<(Listed<Cast>, Listed<Note>), OutOfMemory>
        ensures { IfOk result (λ parts. (parts.0 ≡ self.kept) × (parts.1 ≡ self.notes ++ self.faults)) }
    {
        let Casts {
            kept,
            mut notes,
            faults,
        } = self;
        for fault in faults.as_slice() {
            notes.push(*fault)?;
        }
        Ok((kept, notes))
    }
}
