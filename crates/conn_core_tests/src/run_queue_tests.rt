use cable_base::{ConnNo, OutOfMemory, SubNo, WantNo};
use cable_fixtures::{Sent, piece};
use run_queue::{Inbox, Ready, Taken};
use std::alloc::Global;
use std::test::Fail;

/// A call of an inbox, with what it has to answer.
#[derive(Clone, Copy)]
enum Act {
    Reserves(u64),
    Puts(Sent),
    /// Takes this piece, at this place.
    Takes(u64, Sent),
    TakesNone,
    StrikesWant(u64),
    StrikesSub(u64),
    DropsWaiting,
    /// This piece waits longest.
    IsFirst(Sent),
    NoneIsFirst,
    WaitingCommands(u64),
}

fn takes(inbox: &mut Inbox, alloc: Global, place: u64, sent: Sent) -> Result<bool, OutOfMemory> {
    let piece = piece(alloc, sent)?;
    Ok(inbox.take() == Some(Taken { place, piece }))
}

fn puts(inbox: &mut Inbox, alloc: Global, sent: Sent) -> Result<bool, OutOfMemory> {
    Ok(inbox.push(piece(alloc, sent)?).is_ok())
}

/// Makes a call, and tells whether it answers what it has to.
fn does(inbox: &mut Inbox, alloc: Global, act: Act) -> Result<bool, OutOfMemory> {
    match act {
        Act::Reserves(more) => inbox.reserve(more)?,
        Act::Puts(sent) => return puts(inbox, alloc, sent),
        Act::Takes(place, sent) => return takes(inbox, alloc, place, sent),
        Act::TakesNone => return Ok(inbox.take().is_none()),
        Act::StrikesWant(want) => inbox.strike_want(WantNo(want)),
        Act::StrikesSub(sub) => inbox.strike_sub(SubNo(sub)),
        Act::DropsWaiting => inbox.drop_waiting(),
        Act::IsFirst(sent) => return Ok(inbox.first() == Some(&piece(alloc, sent)?)),
        Act::NoneIsFirst => return Ok(inbox.first().is_none()),
        Act::WaitingCommands(count) => return Ok(inbox.waiting_commands() == count),
    }
    Ok(true)
}

/// The place of the first call of an empty inbox that answers something else.
fn first_fault(alloc: Global, acts: &[Act]) -> Result<Option<usize>, OutOfMemory> {
    let mut inbox = Inbox::empty(alloc);
    for (place, act) in acts.iter().enumerate() {
        if !does(&mut inbox, alloc, *act)? {
            return Ok(Some(place));
        }
    }
    Ok(None)
}

/// What is struck keeps its place.
#[test]
fn strikes_wants(rt: HostRuntime) -> Result<(), Fail> {
    let acts = [
        Act::Reserves(3),
        Act::Puts(Sent::Row(1, 1)),
        Act::Puts(Sent::Row(2, 2)),
        Act::Puts(Sent::Row(1, 1)),
        Act::StrikesWant(1),
        Act::Takes(2, Sent::Row(2, 2)),
        Act::TakesNone,
        Act::Puts(Sent::Gone),
        Act::Takes(4, Sent::Gone),
    ];
    assert_eq!(rt; first_fault(rt.alloc(), acts.as_slice())?, None);
    Ok(())
}

/// A strike of a subscription takes its rows and its confirmation.
#[test]
fn strikes_subscriptions(rt: HostRuntime) -> Result<(), Fail> {
    let acts = [
        Act::Puts(Sent::Confirm(8)),
        Act::Puts(Sent::Row(8, 3)),
        Act::Puts(Sent::Faulty),
        Act::Puts(Sent::Row(3, 8)),
        Act::StrikesSub(8),
        Act::WaitingCommands(1),
        Act::IsFirst(Sent::Faulty),
        Act::Takes(3, Sent::Faulty),
        Act::Takes(4, Sent::Row(3, 8)),
        Act::TakesNone,
    ];
    assert_eq!(rt; first_fault(rt.alloc(), acts.as_slice())?, None);
    Ok(())
}

/// Where all are dropped, the next piece gets the place behind the one that was taken.
#[test]
fn commands_that_wait(rt: HostRuntime) -> Result<(), Fail> {
    let acts = [
        Act::Puts(Sent::Subscribe),
        Act::Puts(Sent::Subscribe),
        Act::Puts(Sent::Subscribe),
        Act::Puts(Sent::Gone),
        Act::WaitingCommands(3),
        Act::Takes(1, Sent::Subscribe),
        Act::WaitingCommands(2),
        Act::DropsWaiting,
        Act::WaitingCommands(0),
        Act::NoneIsFirst,
        Act::Puts(Sent::Restart),
        Act::Takes(2, Sent::Restart),
    ];
    assert_eq!(rt; first_fault(rt.alloc(), acts.as_slice())?, None);
    Ok(())
}

/// A call of the connections that are ready.
#[derive(Clone, Copy)]
enum Step {
    Puts(u64),
    DropsOut(u64),
    /// The one that is ready longest.
    IsFront(u64),
    NoneIsFront,
    Takes(u64),
    TakesNone,
}

fn goes(ready: &mut Ready, step: Step) -> Result<bool, OutOfMemory> {
    match step {
        Step::Puts(conn) => ready.put(ConnNo(conn))?,
        Step::DropsOut(conn) => ready.drop_out(ConnNo(conn)),
        Step::IsFront(conn) => return Ok(ready.front() == Some(ConnNo(conn))),
        Step::NoneIsFront => return Ok(ready.front().is_none()),
        Step::Takes(conn) => return Ok(ready.next() == Some(ConnNo(conn))),
        Step::TakesNone => return Ok(ready.next().is_none()),
    }
    Ok(true)
}

/// The place of the first of these calls that answers something else, where none is ready at first and room is made for two.
fn first_fault_of_ready(alloc: Global, steps: &[Step]) -> Result<Option<usize>, OutOfMemory> {
    let mut ready = Ready::empty(alloc);
    ready.reserve(2)?;
    for (place, step) in steps.iter().enumerate() {
        if !goes(&mut ready, *step)? {
            return Ok(Some(place));
        }
    }
    Ok(None)
}

#[test]
fn ready_numbers(rt: HostRuntime) -> Result<(), Fail> {
    let steps = [
        Step::Puts(3),
        Step::Puts(4),
        Step::Puts(3),
        Step::IsFront(3),
        Step::Takes(3),
        Step::Takes(4),
        Step::TakesNone,
    ];
    assert_eq!(rt; first_fault_of_ready(rt.alloc(), steps.as_slice())?, None);
    Ok(())
}

/// A number that was taken out and put again stands at the end.
#[test]
fn ready_numbers_that_drop_out(rt: HostRuntime) -> Result<(), Fail> {
    let steps = [
        Step::Puts(5),
        Step::Puts(6),
        Step::Puts(7),
        Step::Puts(8),
        Step::DropsOut(6),
        Step::DropsOut(9),
        Step::DropsOut(5),
        Step::Puts(6),
        Step::IsFront(7),
        Step::Takes(7),
        Step::Takes(8),
        Step::Takes(6),
        Step::TakesNone,
        Step::NoneIsFront,
    ];
    assert_eq!(rt; first_fault_of_ready(rt.alloc(), steps.as_slice())?, None);
    Ok(())
}
