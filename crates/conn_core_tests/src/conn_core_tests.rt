ghost use Rattle.std.specs.Prelude.{◌≡◌, ◌≤◌, ◌+◌, ◌^◌, IfOk, true, false, []};
ghost use Rattle.std.specs.List.{list_all};
ghost use Rattle.conn_core.specs.Subscriptions.{shown};
ghost use Rattle.conn_core_tests.specs.Worked.{AppliesAbove, is_bare_below};

use cable_base::{Listed, Name, OutOfMemory, RowId, SubNo, Text, WantNo};
use cable_fixtures::{names, subscribe};
use cable_model::{Change, Note, Plan, Task};
use channel_book::{Answer, Book, CallFault, Callbacks};
use conn_core::{Conn, Sub, plan, sub_named, sub_numbered};
use std::alloc::Global;
use std::test::Fail;

const BOOK: &str =
    r#"{"tokens":{"t1":"alice","t2":"bob"},"channels":[{"name":"Plain","actions":[{"name":"say","echo":true}]},{"name":"Chat","requires":["room"],"streams":["room_{room}"],"actions":[{"name":"speak","casts":["room_{room}"]},{"name":"receive","casts":["room_{room}"]},{"name":"quiet","stops":["room_{room}"]}]},{"name":"Pair","streams":["a","b"]},{"name":"Club","streams":["club"],"leave":[{"to":"club","payload":"{\"left\":1}"}]},{"name":"Free","requires":["name"],"streams":["{name}"]}]}"#;

const PLAIN: &str = r#"{"channel":"Plain"}"#;

const CLUB: &str = r#"{"channel":"Club"}"#;

const CONFIRMED: &str = r#"{"identifier":"{\"channel\":\"Plain\"}","type":"confirm_subscription"}"#;

const REJECTED: &str = r#"{"identifier":"{\"channel\":\"Plain\"}","type":"reject_subscription"}"#;

/// An application that asks for the same streams at each call, and knows no channel at the end.
#[derive(Drop)]
struct App {
    streams: Listed<Name>,
    stops: Listed<Name>,
}

impl App {
    fn answer(&self, alloc: Global) -> Result<Answer, OutOfMemory>
        ensures { IfOk result (λ a. a ≡ record { rejected = false; streams = self.now.streams; stops = self.now.stops; says = []; casts = [] }) }
    {
        Ok(Answer {
            rejected: false,
            streams: self.streams.copy(alloc)?,
            stops: self.stops.copy(alloc)?,
            says: Listed::empty(alloc),
            casts: Listed::empty(alloc),
        })
    }
}

impl Callbacks for App {
    ghost use Rattle.std.specs.Prelude.{false, [], None, Ok, Err};
    ghost use Rattle.channel_book.specs.declared.answers.CallFault.TheVariants as call_fault;

    ghost answers = { λ a. record {
      identify = λ token. None;
      subscribed = λ user identifier. Ok (record { rejected = false; streams = a.streams; stops = a.stops; says = []; casts = [] });
      unsubscribed = λ user identifier. Err call_fault.UnknownChannel;
      perform = λ user identifier payload. Ok (record { rejected = false; streams = a.streams; stops = a.stops; says = []; casts = [] });
    } };

    fn identify(&self, _token: &str) -> Option<&str> {
        None
    }

    fn subscribed(
        &self,
        alloc: Global,
        _user: &str,
        _identifier: &str,
    ) -> Result<Answer, CallFault> {
        Ok(self.answer(alloc)?)
    }

    fn unsubscribed(
        &self,
        _alloc: Global,
        _user: &str,
        _identifier: &str,
    ) -> Result<Answer, CallFault> {
        Err(CallFault::UnknownChannel)
    }

    fn perform(
        &self,
        alloc: Global,
        _user: &str,
        _identifier: &str,
        _payload: &str,
    ) -> Result<Answer, CallFault> {
        Ok(self.answer(alloc)?)
    }
}

/// What a subscribe needs of the connection.
fn task(conn: &Conn, alloc: Global, identifier: &str) -> Result<Task, OutOfMemory> {
    conn.task(&subscribe(alloc, identifier)?)
}

/// What the application makes of a subscribe, which is neither passed over nor refused.
fn planned<C: Callbacks>(
    conn: &Conn,
    alloc: Global,
    app: &C,
    identifier: &str,
) -> Result<Plan, Fail>
    ensures { IfOk result (λ p. AppliesAbove p.change conn.now.subs) }
{
    let task = conn.task(&subscribe(alloc, identifier)?)?;
    let Task::Subscribe { .. } = &task else {
        return Err(Fail::from("no subscribe"));
    };
    Ok(plan(alloc, &task, conn.user(), app)?)
}

/// Whether each subscription has a number below this one, and no streams.
fn are_bare_below(subs: &[Sub], number: SubNo) -> bool
    ensures { result ≡ list_all (λ s. is_bare_below number (shown s)) subs.now }
{
    subs.iter().all(|sub| sub.number().0 < number.0 && sub.streams().entries().is_empty())
}

/// Whether so many wants can be numbered from this one on.
fn has_numbers(first: WantNo, count: u64) -> bool
    ensures { result ≡ true → first.0 + count ≤ 2 ^ 64 }
{
    count <= u64::MAX - first.0
}

/// Works a subscribe by its own plan. The subscription gets this number, and its wants are numbered from `first` on.
fn work<C: Callbacks>(
    conn: &mut Conn,
    alloc: Global,
    app: &C,
    identifier: &str,
    number: SubNo,
    first: WantNo,
) -> Result<Plan, Fail> {
    if !are_bare_below(conn.subs(), number) {
        return Err(Fail::from("the number is not new"));
    }
    let plan = planned(conn, alloc, app, identifier)?;
    if !has_numbers(first, plan.change.wants_made()) {
        return Err(Fail::from("too many wants"));
    }
    conn.reserve(&plan)?;
    conn.apply(&plan, number, first);
    Ok(plan)
}

/// Whether the change makes a subscription with this identifier, and so many streams.
fn adds(change: &Change, asked: &str, count: usize) -> bool {
    match change {
        Change::Add {
            identifier,
            streams,
        } => identifier.as_str() == asked && streams.as_slice().len() == count,
        _ => false,
    }
}

/// Whether this is the only text.
fn says(texts: &[Text], said: &str) -> bool {
    match texts {
        [text] => text.as_str() == said,
        _ => false,
    }
}

/// Whether a subscribe to the channel `Plain` is planned as one that is confirmed at once.
fn is_confirmed(plan: &Plan) -> bool {
    says(plan.texts.as_slice(), CONFIRMED)
        && plan.notes.as_slice().is_empty()
        && plan.casts.as_slice().is_empty()
        && adds(&plan.change, PLAIN, 0)
}

/// Whether the one subscription is this one, and has no streams.
fn stands(conn: &Conn, number: SubNo, identifier: &str) -> bool {
    match conn.subs() {
        [sub] => {
            sub.number() == number
                && sub.identifier() == identifier
                && sub.identifier_text().as_str() == identifier
                && sub.streams().entries().is_empty()
        }
        _ => false,
    }
}

fn is_sub(found: Option<&Sub>, number: SubNo) -> bool {
    match found {
        Some(sub) => sub.number() == number,
        None => false,
    }
}

/// Whether the subscription is found by its identifier and by its number, and no other one is.
fn finds(conn: &Conn, number: SubNo, identifier: &str) -> bool {
    is_sub(sub_named(conn.subs(), identifier), number)
        && is_sub(sub_numbered(conn.subs(), number), number)
        && sub_named(conn.subs(), "").is_none()
        && sub_numbered(conn.subs(), SubNo(0)).is_none()
}

/// A subscription without streams is confirmed and stands, and waits for no stream.
fn subscribes(conn: &mut Conn, alloc: Global, book: &Book) -> Result<bool, Fail> {
    let plan = work(conn, alloc, book, PLAIN, SubNo(1), WantNo(1))?;
    Ok(
        is_confirmed(&plan)
            && stands(conn, SubNo(1), PLAIN)
            && finds(conn, SubNo(1), PLAIN)
            && !conn.place(SubNo(1), WantNo(1), RowId(5)),
    )
}

#[test]
fn subscribes_once(rt: HostRuntime) -> Result<(), Fail> {
    let alloc = rt.alloc();
    let book = Book::read(alloc, BOOK)?;
    let mut conn = Conn::begin(alloc, "alice")?;
    assert!(rt; subscribes(&mut conn, alloc, &book)?);
    assert!(rt; task(&conn, alloc, PLAIN)? == Task::Nothing);
    assert!(rt; conn.user() == "alice" && conn.user_text().as_str() == "alice");
    assert!(rt; !conn.is_over());
    Ok(())
}

/// Whether the stream of the one subscription is held from this mark on.
fn holds(conn: &Conn, mark: RowId) -> bool {
    match conn.subs() {
        [sub] => sub.streams().held("club") == Some(mark),
        _ => false,
    }
}

/// The want of the subscription gets its mark, once.
fn places(conn: &mut Conn) -> bool {
    !conn.place(SubNo(1), WantNo(7), RowId(5))
        && !conn.place(SubNo(3), WantNo(8), RowId(5))
        && conn.place(SubNo(3), WantNo(7), RowId(5))
        && !conn.place(SubNo(3), WantNo(7), RowId(6))
        && holds(conn, RowId(5))
}

/// A subscription with a stream is not confirmed yet, and its stream is held from its mark on.
fn wants(conn: &mut Conn, alloc: Global, book: &Book) -> Result<bool, Fail> {
    let plan = work(conn, alloc, book, CLUB, SubNo(3), WantNo(7))?;
    Ok(plan.texts.as_slice().is_empty() && adds(&plan.change, CLUB, 1) && places(conn))
}

#[test]
fn holds_a_stream_from_its_mark_on(rt: HostRuntime) -> Result<(), Fail> {
    let book = Book::read(rt.alloc(), BOOK)?;
    let mut conn = Conn::begin(rt.alloc(), "alice")?;
    assert!(rt; wants(&mut conn, rt.alloc(), &book)?);
    Ok(())
}

/// A number as a text.
fn digits(alloc: Global, number: u64) -> Result<String, Fail> {
    Ok(format!(in alloc; "{number}")?)
}

/// The names `0`, `1` and so on, so many of them.
fn numbered(alloc: Global, count: u64) -> Result<Listed<Name>, Fail> {
    let mut names = Listed::empty(alloc);
    for number in 0..count {
        names.push(Name::of(Text::of(digits(alloc, number)?)?))?;
    }
    Ok(names)
}

/// Makes subscriptions with these numbers and without streams. Their identifiers are their numbers.
fn subscribe_each(conn: &mut Conn, alloc: Global, numbers: [u64; 2]) -> Result<(), Fail> {
    let app = App {
        streams: Listed::empty(alloc),
        stops: Listed::empty(alloc),
    };
    for number in numbers[0]..numbers[1] {
        let identifier = digits(alloc, number)?;
        work(
            conn,
            alloc,
            &app,
            identifier.as_str(),
            SubNo(number),
            WantNo(1),
        )?;
    }
    Ok(())
}

/// Whether the task is a subscribe with this identifier.
fn asks(task: &Task, asked: &str) -> bool {
    match task {
        Task::Subscribe { identifier } => identifier.as_str() == asked,
        _ => false,
    }
}

/// Where 99 subscriptions stand, another one is made.
fn takes_another(conn: &mut Conn, alloc: Global) -> Result<bool, Fail> {
    subscribe_each(conn, alloc, [0, 99])?;
    Ok(asks(&task(conn, alloc, "next")?, "next"))
}

/// Where 100 subscriptions stand, no other one is made, and those that stand are passed over.
fn takes_no_other(conn: &mut Conn, alloc: Global) -> Result<bool, Fail> {
    subscribe_each(conn, alloc, [99, 100])?;
    let is_refused = task(conn, alloc, "next")? == Task::Note(Note::TooManySubscriptions);
    Ok(is_refused && task(conn, alloc, "99")? == Task::Nothing)
}

#[test]
fn takes_100_subscriptions(rt: HostRuntime) -> Result<(), Fail> {
    let mut conn = Conn::begin(rt.alloc(), "alice")?;
    assert!(rt; takes_another(&mut conn, rt.alloc())?);
    assert!(rt; takes_no_other(&mut conn, rt.alloc())?);
    Ok(())
}

/// A name that an application asks for.
#[derive(Clone, Copy)]
enum Asked {
    Short(&'static str),
    /// Of the greatest length.
    Longest,
    /// Of one byte more.
    TooLong,
    /// Reserved and too long.
    Reserved,
}

fn asked_name(alloc: Global, asked: &Asked) -> Result<String, OutOfMemory> {
    Ok(match asked {
        Asked::Short(name) => String::from_str(alloc, name)?,
        Asked::Longest => "a".repeat(alloc, 1024)?,
        Asked::TooLong => "a".repeat(alloc, 1025)?,
        Asked::Reserved => "action_cable/".repeat(alloc, 100)?,
    })
}

fn asked_names(alloc: Global, asked: &[Asked]) -> Result<Listed<Name>, OutOfMemory> {
    let mut names = Listed::empty(alloc);
    for name in asked {
        names.push(Name::of(Text::of(asked_name(alloc, name)?)?))?;
    }
    Ok(names)
}

/// Whether a subscription is rejected with this note, and then left, of which the application knows nothing.
fn is_rejected(plan: &Plan, why: Note) -> bool {
    says(plan.texts.as_slice(), REJECTED)
        && plan.notes.as_slice() == [why, Note::UnknownChannel].as_slice()
        && plan.casts.as_slice().is_empty()
        && plan.change == Change::Nothing
}

/// Whether a subscription for which these streams are asked is rejected with this note.
fn rejects(alloc: Global, streams: Listed<Name>, why: Note) -> Result<bool, Fail> {
    let app = App {
        streams,
        stops: Listed::empty(alloc),
    };
    let conn = Conn::begin(alloc, "alice")?;
    Ok(is_rejected(&planned(&conn, alloc, &app, PLAIN)?, why))
}

#[test]
fn rejects_for_a_reserved_stream(rt: HostRuntime) -> Result<(), Fail> {
    let asked = [Asked::Short("b"), Asked::Reserved, Asked::TooLong];
    let streams = asked_names(rt.alloc(), asked.as_slice())?;
    assert!(rt; rejects(rt.alloc(), streams, Note::ReservedStream)?);
    Ok(())
}

#[test]
fn rejects_for_a_long_stream(rt: HostRuntime) -> Result<(), Fail> {
    let asked = [Asked::Short("b"), Asked::TooLong, Asked::Reserved];
    let streams = asked_names(rt.alloc(), asked.as_slice())?;
    assert!(rt; rejects(rt.alloc(), streams, Note::NameTooLong)?);
    Ok(())
}

#[test]
fn rejects_for_the_101st_stream(rt: HostRuntime) -> Result<(), Fail> {
    let streams = numbered(rt.alloc(), 101)?;
    assert!(rt; rejects(rt.alloc(), streams, Note::TooManyStreams)?);
    Ok(())
}

/// What a message gives with this application, to a subscription with the streams `0` to `99`.
fn message_plan(alloc: Global, app: &App) -> Result<Plan, Fail> {
    let task = Task::Perform {
        identifier: Text::new(alloc, PLAIN)?,
        payload: Text::new(alloc, "{}")?,
        streams: numbered(alloc, 100)?,
    };
    Ok(plan(alloc, &task, "alice", app)?)
}

/// An application that stops the stream `7` and asks for good and bad ones.
fn asking(alloc: Global) -> Result<App, OutOfMemory> {
    let asked = [
        Asked::Longest,
        Asked::Short("7"),
        Asked::TooLong,
        Asked::Short("8"),
        Asked::Reserved,
    ];
    Ok(App {
        streams: asked_names(alloc, asked.as_slice())?,
        stops: names(alloc, &["7"])?,
    })
}

/// The change that stops the stream `7` and wants the one with the longest name.
fn longest_for_7(alloc: Global) -> Result<Change, OutOfMemory> {
    Ok(Change::Streams {
        identifier: Text::new(alloc, PLAIN)?,
        stops: names(alloc, &["7"])?,
        streams: asked_names(alloc, [Asked::Longest].as_slice())?,
    })
}

/// Whether these are the notes: the stream that stopped came back where 100 stood again, and two had a bad name.
fn passes_over(notes: &[Note]) -> bool {
    let wanted = [
        Note::TooManyStreams,
        Note::NameTooLong,
        Note::ReservedStream,
    ];
    notes == wanted.as_slice()
}

#[test]
fn passes_over_bad_streams_of_a_message(rt: HostRuntime) -> Result<(), Fail> {
    let app = asking(rt.alloc())?;
    let plan = message_plan(rt.alloc(), &app)?;
    let changed = longest_for_7(rt.alloc())?;
    assert!(rt; passes_over(plan.notes.as_slice()));
    assert!(rt; plan.change == changed);
    Ok(())
}
