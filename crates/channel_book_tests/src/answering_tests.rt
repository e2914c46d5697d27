use cable_base::{Name, Text};
use channel_book::{Answer, Book, CallFault, Callbacks, Cast};
use std::alloc::{AllocError, Global};
use std::test::Fail;

const BOOK: &str =
    r#"{"tokens":{"t1":"alice","t2":"bob"},"channels":[{"name":"Plain","actions":[{"name":"say","echo":true}]},{"name":"Chat","requires":["room"],"streams":["room_{room}"],"actions":[{"name":"speak","casts":["room_{room}"]},{"name":"receive","casts":["room_{room}"]},{"name":"quiet","stops":["room_{room}"]}]},{"name":"Pair","streams":["a","b"]},{"name":"Club","streams":["club"],"leave":[{"to":"club","payload":"{\"left\":1}"}]},{"name":"Free","requires":["name"],"streams":["{name}"]}]}"#;

/// Calls of this book, each with its answer.
const CALLS: &str = r#"identify t1 -> alice
identify t2 -> bob
identify t -> nobody
identify t11 -> nobody
identify T1 -> nobody
identify alice -> nobody
subscribed {"channel":"Chat","room":1} -> stream room_1
subscribed {"channel":"Chat"} -> rejected
subscribed {"channel":"Plain"} ->
subscribed {"channel":"Pair"} -> stream a stream b
subscribed {"channel":"Free","name":"action_cable/x"} -> stream action_cable/x
subscribed x -> bad-identifier
subscribed {} -> bad-identifier
subscribed [] -> bad-identifier
subscribed {"channel":null} -> bad-identifier
subscribed {"channel":"None"} -> unknown-channel
subscribed {"channel":"Club","channel":"Pair"} -> stream a stream b
unsubscribed {"channel":"Club"} -> cast club {"left":1}
unsubscribed {"channel":"Chat"} ->
unsubscribed x -> bad-identifier
unsubscribed {"channel":"None"} -> unknown-channel
perform {"channel":"Chat","room":1} with {} -> cast room_1 {}
perform {"channel":"Chat","room":1} with [] -> bad-data
perform {"channel":"Chat","room":1} with {"action":7} -> unknown-action
perform {"channel":"Chat","room":1} with {"action":"quiet"} -> stop room_1
perform {"channel":"Chat"} with {"action":7} -> unknown-action
perform {"channel":"Chat"} with [] -> bad-data
perform {"channel":"Chat"} with {} ->
perform {"channel":"Plain"} with {"action":"say"} -> say {"action":"say"}
perform {"channel":"Plain"} with {} -> unknown-action
perform x with [] -> bad-identifier
perform {"channel":"None"} with [] -> unknown-channel"#;

/// A book that does everything at once.
const RICH: &str =
    r#"{"channels":[{"name":"Rich","requires":["p"],"streams":["s_{p}_{user}","s"],"says":[" { \"n\" : 1.50 } "],"enter":[{"to":"e_{p}","payload":"[ 1 ]"}],"leave":[{"to":"{user}","payload":" 2"},{"to":"l","payload":"\" \""}],"actions":[{"name":"receive","casts":["c_{p}","c"],"echo":true,"streams":["t_{p}"],"stops":["s_{p}_{user}","s"]},{"name":"go"}]}]}"#;

/// Calls of this book, each with its answer.
const RICH_CALLS: &str =
    r#"subscribed {"channel":"Rich","p":"a b"} -> stream s_a b_alice stream s say {"n":1.50} cast e_a b [1]
unsubscribed {"channel":"Rich","p":"a b"} -> cast alice 2 cast l " "
subscribed {"channel":"Rich","p":""} -> stream s__alice stream s say {"n":1.50} cast e_ [1]
unsubscribed {"channel":"Rich","p":""} -> cast alice 2 cast l " "
subscribed {"channel":"Rich","p":0} -> stream s_0_alice stream s say {"n":1.50} cast e_0 [1]
unsubscribed {"channel":"Rich","p":0} -> cast alice 2 cast l " "
subscribed {"channel":"Rich","p":-1} -> stream s_-1_alice stream s say {"n":1.50} cast e_-1 [1]
unsubscribed {"channel":"Rich","p":-1} -> cast alice 2 cast l " "
subscribed {"channel":"Rich","p":18446744073709551615} -> stream s_18446744073709551615_alice stream s say {"n":1.50} cast e_18446744073709551615 [1]
unsubscribed {"channel":"Rich","p":18446744073709551615} -> cast alice 2 cast l " "
subscribed {"channel":"Rich","p":-9223372036854775808} -> stream s_-9223372036854775808_alice stream s say {"n":1.50} cast e_-9223372036854775808 [1]
unsubscribed {"channel":"Rich","p":-9223372036854775808} -> cast alice 2 cast l " "
subscribed {"channel":"Rich","p":true} -> stream s_true_alice stream s say {"n":1.50} cast e_true [1]
unsubscribed {"channel":"Rich","p":true} -> cast alice 2 cast l " "
subscribed {"channel":"Rich","p":false} -> stream s_false_alice stream s say {"n":1.50} cast e_false [1]
unsubscribed {"channel":"Rich","p":false} -> cast alice 2 cast l " "
subscribed {"channel":"Rich","p":1.0} -> rejected
unsubscribed {"channel":"Rich","p":1.0} ->
perform {"channel":"Rich","p":1.0} with {} ->
subscribed {"channel":"Rich","p":-0} -> rejected
unsubscribed {"channel":"Rich","p":-0} ->
perform {"channel":"Rich","p":-0} with {} ->
subscribed {"channel":"Rich","p":1e2} -> rejected
unsubscribed {"channel":"Rich","p":1e2} ->
perform {"channel":"Rich","p":1e2} with {} ->
subscribed {"channel":"Rich","p":18446744073709551616} -> rejected
unsubscribed {"channel":"Rich","p":18446744073709551616} ->
perform {"channel":"Rich","p":18446744073709551616} with {} ->
subscribed {"channel":"Rich","p":-9223372036854775809} -> rejected
unsubscribed {"channel":"Rich","p":-9223372036854775809} ->
perform {"channel":"Rich","p":-9223372036854775809} with {} ->
subscribed {"channel":"Rich","p":null} -> rejected
unsubscribed {"channel":"Rich","p":null} ->
perform {"channel":"Rich","p":null} with {} ->
subscribed {"channel":"Rich","p":[]} -> rejected
unsubscribed {"channel":"Rich","p":[]} ->
perform {"channel":"Rich","p":[]} with {} ->
subscribed {"channel":"Rich","p":{}} -> rejected
unsubscribed {"channel":"Rich","p":{}} ->
perform {"channel":"Rich","p":{}} with {} ->
perform {"channel":"Rich","p":7} with { } -> stream t_7 stop s_7_alice stop s say {} cast c_7 {} cast c {}
perform {"channel":"Rich","p":7} with { "action" : " " } -> stream t_7 stop s_7_alice stop s say {"action":" "} cast c_7 {"action":" "} cast c {"action":" "}
perform {"channel":"Rich","p":7} with {"action":"\t\n\r "} -> stream t_7 stop s_7_alice stop s say {"action":"\t\n\r "} cast c_7 {"action":"\t\n\r "} cast c {"action":"\t\n\r "}
perform {"channel":"Rich","p":7} with {"action":null} -> stream t_7 stop s_7_alice stop s say {"action":null} cast c_7 {"action":null} cast c {"action":null}
perform {"channel":"Rich","p":7} with {"action":false} -> stream t_7 stop s_7_alice stop s say {"action":false} cast c_7 {"action":false} cast c {"action":false}
perform {"channel":"Rich","p":7} with {"action":[]} -> stream t_7 stop s_7_alice stop s say {"action":[]} cast c_7 {"action":[]} cast c {"action":[]}
perform {"channel":"Rich","p":7} with {"action": {}} -> stream t_7 stop s_7_alice stop s say {"action":{}} cast c_7 {"action":{}} cast c {"action":{}}
perform {"channel":"Rich","p":7} with {"action":"go"} ->
perform {"channel":"Rich","p":7} with {"action":" go"} -> unknown-action
perform {"channel":"Rich","p":7} with {"action":"\u000b"} -> unknown-action
perform {"channel":"Rich","p":7} with {"action":"\u00a0"} -> unknown-action
perform {"channel":"Rich","p":7} with {"action":true} -> unknown-action
perform {"channel":"Rich","p":7} with {"action":0} -> unknown-action
perform {"channel":"Rich","p":7} with {"action":[0]} -> unknown-action
perform {"channel":"Rich","p":7} with {"action":{"a":0}} -> unknown-action
perform {"channel":"Rich","p":7} with 7 -> bad-data
perform {"channel":"Rich","p":7} with { -> bad-data"#;

fn put_names(shown: &mut String, word: &str, names: &[Name]) -> Result<(), AllocError> {
    for name in names {
        shown.push_str(word)?;
        shown.push_str(name.as_str())?;
    }
    Ok(())
}

fn put_says(shown: &mut String, says: &[Text]) -> Result<(), AllocError> {
    for say in says {
        shown.push_str(" say ")?;
        shown.push_str(say.as_str())?;
    }
    Ok(())
}

fn put_casts(shown: &mut String, casts: &[Cast]) -> Result<(), AllocError> {
    for cast in casts {
        shown.push_str(" cast ")?;
        shown.push_str(cast.channel.as_str())?;
        shown.push_str(" ")?;
        shown.push_str(cast.payload.as_str())?;
    }
    Ok(())
}

/// The streams, stops, says and casts of an answer.
fn shown(alloc: Global, answer: &Answer) -> Result<String, AllocError> {
    let mut shown = String::new(alloc);
    if answer.rejected {
        shown.push_str(" rejected")?;
    }
    put_names(&mut shown, " stream ", answer.streams.as_slice())?;
    put_names(&mut shown, " stop ", answer.stops.as_slice())?;
    put_says(&mut shown, answer.says.as_slice())?;
    put_casts(&mut shown, answer.casts.as_slice())?;
    Ok(shown)
}

fn told(alloc: Global, answer: Result<Answer, CallFault>) -> Result<String, AllocError> {
    match answer {
        Ok(answer) => shown(alloc, &answer),
        Err(CallFault::BadIdentifier) => String::from_str(alloc, " bad-identifier"),
        Err(CallFault::UnknownChannel) => String::from_str(alloc, " unknown-channel"),
        Err(CallFault::BadData) => String::from_str(alloc, " bad-data"),
        Err(CallFault::UnknownAction) => String::from_str(alloc, " unknown-action"),
        Err(CallFault::OutOfMemory) => String::from_str(alloc, " out-of-memory"),
    }
}

/// The user of a token.
fn user(alloc: Global, book: &Book, token: &str) -> Result<String, AllocError> {
    let user = book.identify(token).unwrap_or("nobody");
    format!(in alloc; " {user}")
}

fn performed(alloc: Global, book: &Book, message: &str) -> Result<String, AllocError> {
    match message.split_once(" with ") {
        Some((identifier, payload)) => {
            told(alloc, book.perform(alloc, "alice", identifier, payload))
        }
        None => String::from_str(alloc, " no payload"),
    }
}

/// What alice's book answers to a call.
fn answered(alloc: Global, book: &Book, call: &str) -> Result<String, AllocError> {
    match call.split_once(' ') {
        Some(("identify", token)) => user(alloc, book, token),
        Some(("subscribed", identifier)) => {
            told(alloc, book.subscribed(alloc, "alice", identifier))
        }
        Some(("unsubscribed", identifier)) => {
            told(alloc, book.unsubscribed(alloc, "alice", identifier))
        }
        Some(("perform", message)) => performed(alloc, book, message),
        _ => String::from_str(alloc, " no call"),
    }
}

#[test]
fn answers_calls(rt: HostRuntime) -> Result<(), Fail> {
    let alloc = rt.alloc();
    let book = Book::read(alloc, BOOK).ok().ok_or("no book")?;
    for line in CALLS.lines() {
        let (call, want) = line.split_once(" ->").ok_or("no answer")?;
        let got = answered(alloc, &book, call)?;
        assert_eq!(rt; got.as_str(), want, "at {call}");
    }
    Ok(())
}

#[test]
fn fills_in_parameters_and_performs_actions(rt: HostRuntime) -> Result<(), Fail> {
    let alloc = rt.alloc();
    let book = Book::read(alloc, RICH).ok().ok_or("no book")?;
    for line in RICH_CALLS.lines() {
        let (call, want) = line.split_once(" ->").ok_or("no answer")?;
        let got = answered(alloc, &book, call)?;
        assert_eq!(rt; got.as_str(), want, "at {call}");
    }
    Ok(())
}

#[test]
fn copies_a_cast(rt: HostRuntime) -> Result<(), Fail> {
    let alloc = rt.alloc();
    let cast = Cast {
        channel: Name::new(alloc, "room_1")?,
        payload: Text::new(alloc, r#"{"n":1}"#)?,
    };
    let copy = cast.copy(alloc)?;
    assert!(rt; copy == cast);
    Ok(())
}
