ghost use Rattle.std.specs.Prelude.{◌≡◌, map, IfOk, Ok};
ghost use Rattle.cable_json.specs.declared.commands.Command.TheVariants as command;
ghost use Rattle.cable_model.specs.declared.pieces.Piece.TheVariants as piece;
ghost use Rattle.stream_set.specs.declared.entries.StreamEntry.{StreamEntry};
ghost use Rattle.cable_model.specs.Plans.{sub_numbered, row_task, confirm_task, close_task, fault_task, task_of};
ghost use Rattle.conn_core.specs.Subscriptions.{SubParts, shown};
ghost use Rattle.conn_core.specs.Bare.{bare};

use crate::finding::{sub_named, sub_numbered};
use crate::subscriptions::Sub;
use cable_base::{Listed, MOST_SUBSCRIPTIONS, Name, OutOfMemory, SubNo, Text};
use cable_json::{Command, CommandFault};
use cable_model::{Closing, Note, Piece, Task};
use std::alloc::Global;
use stream_set::StreamEntry;

fn names_of(alloc: Global, entries: &[StreamEntry]) -> Result<Listed<Name>, OutOfMemory>
    ensures { IfOk result (λ ns. ns ≡ map (λ (e : StreamEntry). e.name) entries.now) }
{
    let mut names = Listed::empty(alloc);
    for entry in entries {
        names.push(entry.name.copy(alloc)?)?;
    }
    Ok(names)
}

fn identifiers_of(alloc: Global, subs: &[Sub]) -> Result<Listed<Text>, OutOfMemory>
    ensures { IfOk result (λ is. is ≡ map (λ (s : SubParts). s.identifier) subs.now) }
{
    let mut identifiers = Listed::empty(alloc);
    for sub in subs {
        identifiers.push(sub.identifier_text().copy(alloc)?)?;
    }
    Ok(identifiers)
}

/// An identifier that is subscribed is passed over. Where too many subscriptions stand, that is noted.
#[tactic(auto, using(crate::proofs::Bared::sub_named_is, crate::proofs::Bared::count_is))]
fn subscribe_task(alloc: Global, subs: &[Sub], identifier: &Text) -> Result<Task, OutOfMemory>
    ensures { IfOk result (λ t. t ≡ task_of (bare (map shown subs.now)) (piece.Cmd (Ok (command.Subscribe identifier.now)))) }
{
    if sub_named(subs, identifier.as_str()).is_some() {
        return Ok(Task::Nothing);
    }
    if subs.len() >= MOST_SUBSCRIPTIONS {
        return Ok(Task::Note(Note::TooManySubscriptions));
    }
    Ok(Task::Subscribe {
        identifier: identifier.copy(alloc)?,
    })
}

#[tactic(auto, using(crate::proofs::Bared::sub_named_is))]
fn unsubscribe_task(alloc: Global, subs: &[Sub], identifier: &Text) -> Result<Task, OutOfMemory>
    ensures { IfOk result (λ t. t ≡ task_of (bare (map shown subs.now)) (piece.Cmd (Ok (command.Unsubscribe identifier.now)))) }
{
    if sub_named(subs, identifier.as_str()).is_none() {
        return Ok(Task::Note(Note::UnknownSubscription));
    }
    Ok(Task::Unsubscribe {
        identifier: identifier.copy(alloc)?,
    })
}

#[tactic(auto, using(crate::proofs::Bared::sub_named_is, crate::proofs::Bared::names_is))]
fn perform_task(
    alloc: Global,
    subs: &[Sub],
    identifier: &Text,
    payload: &Text,
) -> Result<Task, OutOfMemory>
    ensures { IfOk result (λ t. t ≡ task_of (bare (map shown subs.now)) (piece.Cmd (Ok (command.Message identifier.now payload.now)))) }
{
    let Some(sub) = sub_named(subs, identifier.as_str()) else {
        return Ok(Task::Note(Note::UnknownSubscription));
    };
    Ok(Task::Perform {
        identifier: identifier.copy(alloc)?,
        payload: payload.copy(alloc)?,
        streams: names_of(alloc, sub.streams().entries())?,
    })
}

#[tactic(auto, using(crate::proofs::Bared::sub_numbered_is))]
fn row_task(alloc: Global, subs: &[Sub], number: SubNo, payload: &Text) -> Result<Task, OutOfMemory>
    ensures { IfOk result (λ t. t ≡ row_task payload.now (sub_numbered number.0 (bare (map shown subs.now)))) }
{
    let Some(sub) = sub_numbered(subs, number) else {
        return Ok(Task::Nothing);
    };
    Ok(Task::Row {
        identifier: sub.identifier_text().copy(alloc)?,
        payload: payload.copy(alloc)?,
    })
}

#[tactic(auto, using(crate::proofs::Bared::sub_numbered_is))]
fn confirm_task(alloc: Global, subs: &[Sub], number: SubNo) -> Result<Task, OutOfMemory>
    ensures { IfOk result (λ t. t ≡ confirm_task (sub_numbered number.0 (bare (map shown subs.now)))) }
{
    let Some(sub) = sub_numbered(subs, number) else {
        return Ok(Task::Nothing);
    };
    Ok(Task::Confirm {
        identifier: sub.identifier_text().copy(alloc)?,
    })
}

#[tactic(auto, using(crate::proofs::Bared::identifiers_is))]
fn close_task(alloc: Global, subs: &[Sub], how: Closing) -> Result<Task, OutOfMemory>
    ensures { IfOk result (λ t. t ≡ close_task how (bare (map shown subs.now))) }
{
    Ok(Task::Close {
        how,
        identifiers: identifiers_of(alloc, subs)?,
    })
}

/// A faulty command gives its note. A piece never holds want of memory.
fn fault_task(fault: CommandFault) -> Task
    ensures { result ≡ fault_task fault }
{
    match fault {
        CommandFault::BadJson => Task::Note(Note::BadJson),
        CommandFault::UnknownCommand => Task::Note(Note::UnknownCommand),
        CommandFault::NoIdentifier => Task::Note(Note::NoIdentifier),
        CommandFault::BadData => Task::Note(Note::BadData),
        CommandFault::OutOfMemory => Task::Nothing,
    }
}

fn command_task(alloc: Global, subs: &[Sub], command: &Command) -> Result<Task, OutOfMemory>
    ensures { IfOk result (λ t. t ≡ task_of (bare (map shown subs.now)) (piece.Cmd (Ok command.now))) }
{
    match command {
        Command::Subscribe { identifier } => subscribe_task(alloc, subs, identifier),
        Command::Unsubscribe { identifier } => unsubscribe_task(alloc, subs, identifier),
        Command::Message {
            identifier,
            payload,
        } => perform_task(alloc, subs, identifier, payload),
    }
}

/// What a piece needs from a connection with these subscriptions.
pub fn piece_task(alloc: Global, subs: &[Sub], piece: &Piece) -> Result<Task, OutOfMemory>
    ensures { IfOk result (λ t. t ≡ task_of (bare (map shown subs.now)) piece.now) }
{
    match piece {
        Piece::Cmd { read: Ok(command) } => command_task(alloc, subs, command),
        Piece::Cmd { read: Err(fault) } => Ok(fault_task(*fault)),
        Piece::Row { sub, row, .. } => row_task(alloc, subs, *sub, &row.payload),
        Piece::Confirm { sub } => confirm_task(alloc, subs, *sub),
        Piece::Remote { reconnect } => close_task(
            alloc,
            subs,
            Closing::Remote {
                reconnect: *reconnect,
            },
        ),
        Piece::Gone => close_task(alloc, subs, Closing::Gone),
        Piece::Restart => close_task(alloc, subs, Closing::Restart),
    }
}
