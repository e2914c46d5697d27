ghost use Rattle.std.specs.Prelude.{◌≡◌, List};
ghost use Rattle.cable_base.specs.declared.numbers.SubNo.{SubNo};
ghost use Rattle.cable_base.specs.declared.numbers.WantNo.{WantNo};
ghost use Rattle.conn_core.specs.Connections.{CanApply};
ghost use Rattle.conn_core.specs.Subscriptions.{Subscription};

use cable_base::{Listed, Name, OutOfMemory, RowId, SubNo, Text, WantNo};
use cable_fixtures::{CHAT, Sent, faulty, names, piece};
use cable_model::{Change, Note, Plan, Task};
use conn_seat::Seat;
use std::alloc::Global;
use std::test::Fail;

/// What a connection shows.
#[derive(Clone, Copy)]
enum Look {
    User(&'static str),
    /// Its own stream has this name.
    Own(&'static str),
    IsReceiving(bool),
    IsClosing(bool),
    IsOver(bool),
    HasWaiting(bool),
    MayTake(bool),
    WaitingCommands(u64),
    Made(u64),
    /// The faulty command at this place is out as a job.
    IsFaultyOut(u64),
    /// The one subscription has this number.
    HasSub(u64),
    HasNoSub,
    /// Whether the job needs no more than this note.
    IsNote(Note, bool),
    IsNothing(bool),
    /// Whether the job is a message with this payload, of a subscription with this one stream.
    IsMessage(&'static str, &'static str, bool),
}

/// A call of a connection, with what it has to answer.
#[derive(Clone, Copy)]
enum Act {
    Puts(Sent),
    /// Makes room for so many pieces, or is refused.
    Reserves(u64, bool),
    /// Takes the piece at this place.
    Takes(u64),
    /// Takes a piece that needs no more than this note.
    TakesNote(Note),
    TakesNone,
    /// Ends the job without a change.
    Ends,
    /// Ends the job with a first subscription, which has one stream.
    Subscribes,
    Unsubscribes,
    Closes,
    /// Gives the want of the subscription this mark.
    Places(u64, u64, u64, bool),
    Shows(Look),
}

/// The task of a message with this payload to the subscription, which has this one stream.
fn message_task(alloc: Global, payload: &str, stream: &str) -> Result<Task, OutOfMemory> {
    Ok(Task::Perform {
        identifier: Text::new(alloc, CHAT)?,
        payload: Text::new(alloc, payload)?,
        streams: names(alloc, &[stream])?,
    })
}

fn is_message(
    seat: &Seat,
    alloc: Global,
    payload: &str,
    stream: &str,
) -> Result<bool, OutOfMemory> {
    Ok(seat.is_task(&message_task(alloc, payload, stream)?))
}

fn is_faulty_out(seat: &Seat, place: u64) -> bool {
    seat.job_place() == Some(place) && seat.job() == Some(&faulty())
}

fn has_sub(seat: &Seat, number: u64) -> bool {
    match seat.subs() {
        [sub] => sub.number() == SubNo(number) && sub.identifier() == CHAT,
        _ => false,
    }
}

fn has_user(seat: &Seat, user: &str) -> bool {
    seat.user() == user && seat.user_text().as_str() == user
}

fn shows(seat: &Seat, alloc: Global, look: Look) -> Result<bool, OutOfMemory> {
    Ok(match look {
        Look::User(user) => has_user(seat, user),
        Look::Own(name) => seat.own().as_str() == name,
        Look::IsReceiving(receiving) => seat.is_receiving() == receiving,
        Look::IsClosing(closing) => seat.is_closing() == closing,
        Look::IsOver(over) => seat.is_over() == over,
        Look::HasWaiting(waiting) => seat.has_waiting() == waiting,
        Look::MayTake(takes) => seat.may_take() == takes,
        Look::WaitingCommands(count) => seat.waiting_commands() == count,
        Look::Made(count) => seat.made() == count,
        Look::IsFaultyOut(place) => is_faulty_out(seat, place),
        Look::HasSub(number) => has_sub(seat, number),
        Look::HasNoSub => seat.subs().is_empty(),
        Look::IsNote(note, is_it) => seat.is_task(&Task::Note(note)) == is_it,
        Look::IsNothing(is_it) => seat.is_task(&Task::Nothing) == is_it,
        Look::IsMessage(payload, stream, is_it) => {
            is_message(seat, alloc, payload, stream)? == is_it
        }
    })
}

/// The plan that makes this change, and says nothing.
fn plan(alloc: Global, change: Change) -> Plan
    ensures { result.change ≡ change }
{
    Plan {
        texts: Listed::empty(alloc),
        notes: Listed::empty(alloc),
        casts: Listed::empty(alloc),
        change,
    }
}

/// Ends the job with this change.
fn ends(seat: &mut Seat, alloc: Global, change: Change) -> Result<bool, OutOfMemory>
    requires { (sub : SubNo) (first : WantNo) (subs : List Subscription) → CanApply change sub first subs }
{
    if !seat.has_job() {
        return Ok(false);
    }
    let plan = plan(alloc, change);
    seat.reserve_plan(&plan)?;
    seat.finish(&plan);
    Ok(true)
}

/// Ends the job with a first subscription, which has one stream.
fn subscribes(seat: &mut Seat, alloc: Global) -> Result<bool, OutOfMemory> {
    if !seat.has_job() || !seat.subs().is_empty() {
        return Ok(false);
    }
    let mut streams = Listed::empty(alloc);
    streams.push(Name::new(alloc, "a")?)?;
    let identifier = Text::new(alloc, CHAT)?;
    let plan = plan(
        alloc,
        Change::Add {
            identifier,
            streams,
        },
    );
    seat.reserve_plan(&plan)?;
    seat.finish(&plan);
    Ok(true)
}

fn unsubscribes(seat: &mut Seat, alloc: Global) -> Result<bool, OutOfMemory> {
    let identifier = Text::new(alloc, CHAT)?;
    ends(seat, alloc, Change::Remove { identifier })
}

fn puts(seat: &mut Seat, alloc: Global, sent: Sent) -> Result<bool, OutOfMemory> {
    Ok(seat.put(piece(alloc, sent)?).is_ok())
}

fn takes(seat: &mut Seat, place: u64) -> Result<bool, OutOfMemory> {
    Ok(seat.take()?.is_some() && seat.job_place() == Some(place))
}

/// Makes a call, and tells whether it answers what it has to.
fn does(seat: &mut Seat, alloc: Global, act: Act) -> Result<bool, OutOfMemory> {
    match act {
        Act::Puts(sent) => puts(seat, alloc, sent),
        Act::Reserves(more, done) => Ok(seat.reserve(more).is_ok() == done),
        Act::Takes(place) => takes(seat, place),
        Act::TakesNote(note) => Ok(seat.take()? == Some(Task::Note(note))),
        Act::TakesNone => Ok(seat.take()?.is_none()),
        Act::Ends => ends(seat, alloc, Change::Nothing),
        Act::Subscribes => subscribes(seat, alloc),
        Act::Unsubscribes => unsubscribes(seat, alloc),
        Act::Closes => ends(seat, alloc, Change::Close),
        Act::Places(sub, want, mark, done) => {
            Ok(seat.place(SubNo(sub), WantNo(want), RowId(mark)) == done)
        }
        Act::Shows(look) => shows(seat, alloc, look),
    }
}

/// The place of the first call that answers something else.
fn first_fault(seat: &mut Seat, alloc: Global, acts: &[Act]) -> Result<Option<usize>, OutOfMemory> {
    for (place, act) in acts.iter().enumerate() {
        if !does(seat, alloc, *act)? {
            return Ok(Some(place));
        }
    }
    Ok(None)
}

/// What comes of these calls on a connection on which nothing was put.
fn of_vacant(alloc: Global, acts: &[Act]) -> Result<Option<usize>, OutOfMemory> {
    let mut seat = Seat::open(alloc, "alice")?;
    first_fault(&mut seat, alloc, acts)
}

/// Two commands, of which the second makes a subscription.
fn begin() -> [Act; 6] {
    [
        Act::Puts(Sent::Faulty),
        Act::Puts(Sent::Subscribe),
        Act::Takes(1),
        Act::Ends,
        Act::Takes(2),
        Act::Subscribes,
    ]
}

/// Pieces at the places 3 to 6.
fn fill() -> [Act; 4] {
    [
        Act::Puts(Sent::Faulty),
        Act::Puts(Sent::Row(2, 1)),
        Act::Puts(Sent::Row(3, 2)),
        Act::Puts(Sent::Confirm(2)),
    ]
}

fn fills(seat: &mut Seat, alloc: Global) -> Result<bool, OutOfMemory> {
    let begun = first_fault(seat, alloc, begin().as_slice())?.is_none();
    Ok(begun && first_fault(seat, alloc, fill().as_slice())?.is_none())
}

/// What comes of these calls on a connection with a subscription, on which pieces wait.
fn of_filled(alloc: Global, acts: &[Act]) -> Result<Option<usize>, Fail> {
    let mut seat = Seat::open(alloc, "alice")?;
    if !fills(&mut seat, alloc)? {
        return Err(Fail::from("not filled"));
    }
    Ok(first_fault(&mut seat, alloc, acts)?)
}

#[test]
fn waits_for_nothing_at_first(rt: HostRuntime) -> Result<(), Fail> {
    let acts = [
        Act::Shows(Look::User("alice")),
        Act::Shows(Look::Own("action_cable/alice")),
        Act::Shows(Look::IsReceiving(true)),
        Act::Shows(Look::HasWaiting(false)),
        Act::Shows(Look::MayTake(false)),
        Act::Shows(Look::WaitingCommands(0)),
        Act::Shows(Look::Made(0)),
    ];
    assert_eq!(rt; of_vacant(rt.alloc(), acts.as_slice())?, None);
    Ok(())
}

#[test]
fn works_one_piece_at_a_time(rt: HostRuntime) -> Result<(), Fail> {
    let acts = [
        Act::Shows(Look::WaitingCommands(1)),
        Act::Shows(Look::MayTake(true)),
        Act::Takes(3),
        Act::TakesNone,
        Act::Shows(Look::MayTake(false)),
        Act::Shows(Look::IsFaultyOut(3)),
    ];
    assert_eq!(rt; of_filled(rt.alloc(), acts.as_slice())?, None);
    Ok(())
}

/// A take answers the task of its piece, which is known until the job ends.
#[test]
fn knows_the_task_of_its_job(rt: HostRuntime) -> Result<(), Fail> {
    let acts = [
        Act::Shows(Look::IsNote(Note::BadJson, false)),
        Act::TakesNote(Note::BadJson),
        Act::TakesNone,
        Act::Shows(Look::IsNote(Note::BadJson, true)),
        Act::Shows(Look::IsNote(Note::BadData, false)),
        Act::Shows(Look::IsNothing(false)),
        Act::Ends,
        Act::Shows(Look::IsNote(Note::BadJson, false)),
    ];
    assert_eq!(rt; of_filled(rt.alloc(), acts.as_slice())?, None);
    Ok(())
}

/// A message's task has its payload, and the streams of its subscription, whatever their marks.
#[test]
fn knows_the_task_of_a_message(rt: HostRuntime) -> Result<(), Fail> {
    let acts = [
        Act::Puts(Sent::Subscribe),
        Act::Takes(1),
        Act::Subscribes,
        Act::Puts(Sent::Message("{}")),
        Act::Takes(2),
        Act::Shows(Look::IsMessage("{}", "a", true)),
        Act::Shows(Look::IsMessage("[]", "a", false)),
        Act::Shows(Look::IsMessage("{}", "b", false)),
        Act::Places(1, 1, 7, true),
        Act::Shows(Look::IsMessage("{}", "a", true)),
    ];
    assert_eq!(rt; of_vacant(rt.alloc(), acts.as_slice())?, None);
    Ok(())
}

/// A subscription has the place of its Subscribe as its number.
#[test]
fn numbers_subscriptions_and_wants(rt: HostRuntime) -> Result<(), Fail> {
    let acts = [Act::Shows(Look::HasSub(2)), Act::Shows(Look::Made(1))];
    assert_eq!(rt; of_filled(rt.alloc(), acts.as_slice())?, None);
    Ok(())
}

#[test]
fn places_a_mark_once(rt: HostRuntime) -> Result<(), Fail> {
    let acts = [Act::Places(2, 1, 7, true), Act::Places(2, 1, 8, false)];
    assert_eq!(rt; of_filled(rt.alloc(), acts.as_slice())?, None);
    Ok(())
}

/// The row and the confirmation of the subscription that ends are struck.
#[test]
fn strikes_what_ends(rt: HostRuntime) -> Result<(), Fail> {
    let acts = [
        Act::Takes(3),
        Act::Unsubscribes,
        Act::Takes(5),
        Act::Ends,
        Act::TakesNone,
    ];
    assert_eq!(rt; of_filled(rt.alloc(), acts.as_slice())?, None);
    Ok(())
}

#[test]
fn strikes_nothing_that_stands(rt: HostRuntime) -> Result<(), Fail> {
    let acts = [
        Act::Takes(3),
        Act::Ends,
        Act::Takes(4),
        Act::Ends,
        Act::Takes(5),
        Act::Ends,
        Act::Takes(6),
    ];
    assert_eq!(rt; of_filled(rt.alloc(), acts.as_slice())?, None);
    Ok(())
}

/// A command behind the closing piece is passed over.
#[test]
fn puts_nothing_behind_a_closing_piece(rt: HostRuntime) -> Result<(), Fail> {
    let acts = [
        Act::Puts(Sent::Remote),
        Act::Puts(Sent::Faulty),
        Act::Shows(Look::IsClosing(true)),
        Act::Shows(Look::IsReceiving(false)),
        Act::Shows(Look::IsOver(false)),
        Act::Shows(Look::WaitingCommands(0)),
    ];
    assert_eq!(rt; of_vacant(rt.alloc(), acts.as_slice())?, None);
    Ok(())
}

#[test]
fn leaves_nothing_waiting_at_the_end(rt: HostRuntime) -> Result<(), Fail> {
    let acts = [
        Act::Takes(3),
        Act::Closes,
        Act::Shows(Look::IsOver(true)),
        Act::Shows(Look::IsReceiving(false)),
        Act::Shows(Look::HasWaiting(false)),
        Act::TakesNone,
        Act::Shows(Look::HasNoSub),
    ];
    assert_eq!(rt; of_filled(rt.alloc(), acts.as_slice())?, None);
    Ok(())
}

#[test]
fn puts_into_room(rt: HostRuntime) -> Result<(), Fail> {
    let acts = [
        Act::Reserves(1, true),
        Act::Puts(Sent::Faulty),
        Act::Shows(Look::WaitingCommands(1)),
        Act::Reserves(u64::MAX, false),
    ];
    assert_eq!(rt; of_vacant(rt.alloc(), acts.as_slice())?, None);
    Ok(())
}
