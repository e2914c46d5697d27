ghost use Rattle.std.specs.Prelude.{◌≡◌, ◌++◌, List, ℕ, [], ◌∷◌, true, map, All, IfOk, OnOk};
ghost use Rattle.std.specs.List.{AllByRecursion};
ghost use Rattle.cable_base.specs.Squeeze.{IsSqueezedJson};
ghost use Rattle.channel_book.specs.Calls.{SpeaksJson};
ghost use Rattle.channel_book.specs.declared.answers.Cast.{Cast};
ghost use Rattle.cable_model.specs.Plans.{IsAnswer, IsAnswered, is_rejection, noted, said_only, kept_casts, cast_notes, casts_left, notes_left};
ghost use Rattle.cable_model.specs.Plans.{rejection, confirmation, acceptance, subscribe_plan, unsubscribe_plan, perform_plan, close_plan};
ghost use Rattle.cable_model.specs.Plans.{last_words, new_streams, plan_for};
ghost use Rattle.conn_core.specs.Payloads.{AreCommittable, CarriesJson};

use crate::casting::{Casts, fault_note};
use crate::saying::says;
use crate::walking::walk_streams;
use cable_base::{Listed, Name, OutOfMemory, Text};
use cable_json::{Reason, confirm, disconnect, message, reject};
use cable_model::{Change, Closing, Note, Plan, Task};
use channel_book::{Answer, Callbacks, Cast};
use std::alloc::Global;

/// The plan that does nothing.
fn nothing(alloc: Global) -> Plan
    ensures plan { result ≡ noted [] }
    ensures casts { AreCommittable result.casts }
{
    Plan {
        texts: Listed::empty(alloc),
        notes: Listed::empty(alloc),
        casts: Listed::empty(alloc),
        change: Change::Nothing,
    }
}

fn noting(alloc: Global, note: Note) -> Result<Plan, OutOfMemory>
    ensures plan { IfOk result (λ p. p ≡ noted (note ∷ [])) }
    ensures casts { IfOk result (λ p. AreCommittable p.casts) }
{
    let mut plan = nothing(alloc);
    plan.notes.push(note)?;
    Ok(plan)
}

fn texting(alloc: Global, text: Text) -> Result<Plan, OutOfMemory>
    ensures plan { IfOk result (λ p. p ≡ said_only (text ∷ [])) }
    ensures casts { IfOk result (λ p. AreCommittable p.casts) }
{
    let mut plan = nothing(alloc);
    plan.texts.push(text)?;
    Ok(plan)
}

/// Without streams the confirmation follows at once.
fn confirming(
    alloc: Global,
    texts: &mut Listed<Text>,
    identifier: &str,
    streams: &[Name],
) -> Result<(), OutOfMemory>
    ensures { OnOk result (texts.new ≡ texts.old ++ confirmation identifier.now streams.now) }
{
    match streams {
        [] => texts.push(confirm(alloc, identifier)?),
        [_, ..] => Ok(()),
    }
}

/// The broadcasts of a first answer and then those of `unsubscribed`, behind these notes.
#[tactic(auto, using(crate::proofs::Broadcasts::kept_append, crate::proofs::Broadcasts::notes_both))]
fn casting_both<C: Callbacks>(
    alloc: Global,
    why: Listed<Note>,
    casts: Listed<Cast>,
    identifier: &str,
    user: &str,
    callbacks: &C,
) -> Result<(Listed<Cast>, Listed<Note>), OutOfMemory>
    requires json { All (λ (c : Cast). IsSqueezedJson c.payload) casts }
    ensures casts { IfOk result (λ parts. parts.0 ≡ kept_casts (casts ++ casts_left ((C.answers callbacks.now).unsubscribed user.now identifier.now))) }
    ensures rows { IfOk result (λ parts. AreCommittable parts.0) }
    ensures notes { IfOk result (λ parts. parts.1 ≡ why
        ++ cast_notes (casts ++ casts_left ((C.answers callbacks.now).unsubscribed user.now identifier.now))
        ++ notes_left ((C.answers callbacks.now).unsubscribed user.now identifier.now)) }
    ensures answered { IfOk result (λ _. IsAnswer ((C.answers callbacks.now).unsubscribed user.now identifier.now)) }
{
    let mut walked = Casts::behind(alloc, why);
    walked.add(casts)?;
    walked.leave(alloc, identifier, user, callbacks)?;
    Ok(walked.into_parts()?)
}

/// The subscription is rejected: by its answer, or with the note of its first bad stream.
fn rejecting<C: Callbacks>(
    alloc: Global,
    why: Listed<Note>,
    identifier: &str,
    answer: Answer,
    user: &str,
    callbacks: &C,
) -> Result<Plan, OutOfMemory>
    requires { SpeaksJson answer }
    ensures plan { IfOk result (λ p. p ≡ rejection why identifier.now answer ((C.answers callbacks.now).unsubscribed user.now identifier.now)) }
    ensures casts { IfOk result (λ p. AreCommittable p.casts) }
    ensures answered { IfOk result (λ _. IsAnswer ((C.answers callbacks.now).unsubscribed user.now identifier.now)) }
{
    let Answer {
        says: sayings,
        casts,
        ..
    } = answer;
    let mut texts = says(alloc, identifier, sayings.as_slice())?;
    texts.push(reject(alloc, identifier)?)?;
    let (casts, notes) = casting_both(alloc, why, casts, identifier, user, callbacks)?;
    Ok(Plan {
        texts,
        notes,
        casts,
        change: Change::Nothing,
    })
}

/// The subscription stands, and wants these streams.
fn accepting(
    alloc: Global,
    identifier: &Text,
    answer: Answer,
    wanted: Listed<Name>,
) -> Result<Plan, OutOfMemory>
    requires json { SpeaksJson answer }
    requires wanted { wanted ≡ new_streams [] answer.streams }
    ensures plan { IfOk result (λ p. p ≡ acceptance identifier.now answer) }
    ensures casts { IfOk result (λ p. AreCommittable p.casts) }
{
    let Answer {
        streams,
        says: sayings,
        casts,
        ..
    } = answer;
    let mut texts = says(alloc, identifier.as_str(), sayings.as_slice())?;
    confirming(alloc, &mut texts, identifier.as_str(), streams.as_slice())?;
    let mut walked = Casts::behind(alloc, Listed::empty(alloc));
    walked.add(casts)?;
    let (casts, notes) = walked.into_parts()?;
    Ok(Plan {
        texts,
        notes,
        casts,
        change: Change::Add {
            identifier: identifier.copy(alloc)?,
            streams: wanted,
        },
    })
}

fn subscribing<C: Callbacks>(
    alloc: Global,
    identifier: &Text,
    user: &str,
    callbacks: &C,
) -> Result<Plan, OutOfMemory>
    ensures plan { IfOk result (λ p. p ≡ subscribe_plan identifier.now
        ((C.answers callbacks.now).subscribed user.now identifier.now)
        ((C.answers callbacks.now).unsubscribed user.now identifier.now)) }
    ensures casts { IfOk result (λ p. AreCommittable p.casts) }
    ensures answered { IfOk result (λ _. IsAnswer ((C.answers callbacks.now).subscribed user.now identifier.now)
        × (is_rejection ((C.answers callbacks.now).subscribed user.now identifier.now) ≡ true
        → IsAnswer ((C.answers callbacks.now).unsubscribed user.now identifier.now))) }
{
    let answer = match callbacks.subscribed(alloc, user, identifier.as_str()) {
        Ok(answer) => answer,
        Err(fault) => return noting(alloc, fault_note(fault)?),
    };
    let mut why = Listed::empty(alloc);
    if answer.rejected {
        return rejecting(alloc, why, identifier.as_str(), answer, user, callbacks);
    }
    let walk = walk_streams(alloc, answer.streams.as_slice(), &[], &[])?;
    match walk.notes.as_slice().first() {
        Some(note) => {
            why.push(*note)?;
            rejecting(alloc, why, identifier.as_str(), answer, user, callbacks)
        }
        None => accepting(alloc, identifier, answer, walk.wanted),
    }
}

fn unsubscribing<C: Callbacks>(
    alloc: Global,
    identifier: &Text,
    user: &str,
    callbacks: &C,
) -> Result<Plan, OutOfMemory>
    ensures plan { IfOk result (λ p. p ≡ unsubscribe_plan identifier.now ((C.answers callbacks.now).unsubscribed user.now identifier.now)) }
    ensures casts { IfOk result (λ p. AreCommittable p.casts) }
    ensures answered { IfOk result (λ _. IsAnswer ((C.answers callbacks.now).unsubscribed user.now identifier.now)) }
{
    let mut walked = Casts::behind(alloc, Listed::empty(alloc));
    walked.leave(alloc, identifier.as_str(), user, callbacks)?;
    let (casts, notes) = walked.into_parts()?;
    Ok(Plan {
        texts: Listed::empty(alloc),
        notes,
        casts,
        change: Change::Remove {
            identifier: identifier.copy(alloc)?,
        },
    })
}

/// What `perform` answered, of a subscription with these streams.
fn performed(
    alloc: Global,
    identifier: &Text,
    streams: &[Name],
    answer: Answer,
) -> Result<Plan, OutOfMemory>
    requires { SpeaksJson answer }
    ensures plan { IfOk result (λ p. p ≡ perform_plan identifier.now streams.now (Ok answer)) }
    ensures casts { IfOk result (λ p. AreCommittable p.casts) }
{
    let Answer {
        streams: asked,
        stops,
        says: sayings,
        casts,
        ..
    } = answer;
    let walk = walk_streams(alloc, asked.as_slice(), streams, stops.as_slice())?;
    let mut walked = Casts::behind(alloc, walk.notes);
    walked.add(casts)?;
    let (casts, notes) = walked.into_parts()?;
    Ok(Plan {
        texts: says(alloc, identifier.as_str(), sayings.as_slice())?,
        notes,
        casts,
        change: Change::Streams {
            identifier: identifier.copy(alloc)?,
            stops,
            streams: walk.wanted,
        },
    })
}

fn performing<C: Callbacks>(
    alloc: Global,
    identifier: &Text,
    payload: &str,
    streams: &[Name],
    user: &str,
    callbacks: &C,
) -> Result<Plan, OutOfMemory>
    ensures plan { IfOk result (λ p. p ≡ perform_plan identifier.now streams.now ((C.answers callbacks.now).perform user.now identifier.now payload.now)) }
    ensures casts { IfOk result (λ p. AreCommittable p.casts) }
    ensures answered { IfOk result (λ _. IsAnswer ((C.answers callbacks.now).perform user.now identifier.now payload.now)) }
{
    match callbacks.perform(alloc, user, identifier.as_str(), payload) {
        Ok(answer) => performed(alloc, identifier, streams, answer),
        Err(fault) => noting(alloc, fault_note(fault)?),
    }
}

/// What is said to the client at the end.
fn last_words(alloc: Global, how: Closing) -> Result<Listed<Text>, OutOfMemory>
    ensures { IfOk result (λ texts. texts ≡ last_words how) }
{
    let mut texts = Listed::empty(alloc);
    match how {
        Closing::Gone => {}
        Closing::Restart => texts.push(disconnect(alloc, Reason::ServerRestart, true)?)?,
        Closing::Remote { reconnect } => {
            texts.push(disconnect(alloc, Reason::Remote, reconnect)?)?;
        }
    }
    Ok(texts)
}

fn closing<C: Callbacks>(
    alloc: Global,
    how: Closing,
    identifiers: &[Text],
    user: &str,
    callbacks: &C,
) -> Result<Plan, OutOfMemory>
    ensures plan { IfOk result (λ p. p ≡ close_plan how (map ((C.answers callbacks.now).unsubscribed user.now) identifiers.now)) }
    ensures casts { IfOk result (λ p. AreCommittable p.casts) }
    ensures answered { IfOk result (λ _.
        AllByRecursion (λ (identifier : List ℕ). IsAnswer ((C.answers callbacks.now).unsubscribed user.now identifier)) identifiers.now) }
{
    let mut walked = Casts::behind(alloc, Listed::empty(alloc));
    for identifier in identifiers {
        walked.leave(alloc, identifier.as_str(), user, callbacks)?;
    }
    let (casts, notes) = walked.into_parts()?;
    Ok(Plan {
        texts: last_words(alloc, how)?,
        notes,
        casts,
        change: Change::Close,
    })
}

/// What the rules make of a task, with the answers of the callbacks: the texts for the client, the notes, the broadcasts to commit, and
/// what changes on the connection. It runs without the connection, so that callbacks hold up nobody else. Where a plan comes, the
/// callbacks answered all that it is made of: want of memory of a callback is want of memory here.
pub fn plan<C: Callbacks>(
    alloc: Global,
    task: &Task,
    user: &str,
    callbacks: &C,
) -> Result<Plan, OutOfMemory>
    requires { CarriesJson task.now }
    ensures plan { IfOk result (λ p. p ≡ plan_for (C.answers callbacks.now) user.now task.now) }
    ensures casts { IfOk result (λ p. AreCommittable p.casts) }
    ensures answered { IfOk result (λ _. IsAnswered (C.answers callbacks.now) user.now task.now) }
{
    match task {
        Task::Nothing => Ok(nothing(alloc)),
        Task::Note(note) => noting(alloc, *note),
        Task::Subscribe { identifier } => subscribing(alloc, identifier, user, callbacks),
        Task::Unsubscribe { identifier } => unsubscribing(alloc, identifier, user, callbacks),
        Task::Perform {
            identifier,
            payload,
            streams,
        } => performing(
            alloc,
            identifier,
            payload.as_str(),
            streams.as_slice(),
            user,
            callbacks,
        ),
        Task::Row {
            identifier,
            payload,
        } => texting(
            alloc,
            message(alloc, identifier.as_str(), payload.as_str())?,
        ),
        Task::Confirm { identifier } => texting(alloc, confirm(alloc, identifier.as_str())?),
        Task::Close { how, identifiers } => {
            closing(alloc, *how, identifiers.as_slice(), user, callbacks)
        }
    }
}
