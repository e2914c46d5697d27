use cable_base::{Listed, OutOfMemory, Text};
use http::{Error, Request};
use std::alloc::Global;
use std::test::Fail;
use ws_gate::{Denial, Protocol, Rules, admit};

/// The rules of a server at `/cable`, with these origins.
fn rules(alloc: Global, origins: &[&str]) -> Result<Rules, OutOfMemory> {
    let mut known = Listed::empty(alloc);
    for origin in origins {
        known.push(Text::new(alloc, origin)?)?;
    }
    Ok(Rules {
        path: Text::new(alloc, "/cable")?,
        origins: known,
    })
}

/// A request by GET with a header that stands twice.
fn with_both(
    alloc: Global,
    target: &str,
    name: &str,
    first: &str,
    second: &str,
) -> Result<Request<()>, Error> {
    Request::get(alloc, target)
        .header(name, first)
        .header(name, second)
        .body(())
}

/// A request from a page of this origin.
fn from_page(
    alloc: Global,
    method: &str,
    target: &str,
    origin: &str,
) -> Result<Request<()>, Error> {
    Request::builder(alloc)
        .method(method)
        .uri(target)
        .header("Origin", origin)
        .body(())
}

fn denies(alloc: Global, request: &Request<()>, rules: &Rules, denial: Denial) -> bool {
    match admit(alloc, request, rules) {
        Ok(_) => false,
        Err(found) => found == denial,
    }
}

/// Whether a request is admitted with this token and this protocol.
fn admits(
    alloc: Global,
    request: &Request<()>,
    rules: &Rules,
    token: &str,
    protocol: Option<Protocol>,
) -> bool {
    match admit(alloc, request, rules) {
        Ok(admission) => admission.token.as_str() == token && admission.protocol == protocol,
        Err(_) => false,
    }
}

#[test]
fn a_request_is_admitted_with_its_token_and_protocol_or_denied(
    rt: HostRuntime,
) -> Result<(), Fail> {
    let alloc = rt.alloc();
    let open = rules(alloc, &[])?;
    let listed = "actioncable-v1-json, actioncable-unsupported";
    let own = Request::get(alloc, "/cable?token=t1")
        .header("Sec-WebSocket-Protocol", listed)
        .body(())?;
    assert!(rt; admits(alloc, &own, &open, "t1", Some(Protocol::V1)));
    let posted = Request::post(alloc, "/cable?token=t1").body(())?;
    assert!(rt; denies(alloc, &posted, &open, Denial::WrongMethod));
    let other = Request::get(alloc, "/other").body(())?;
    assert!(rt; denies(alloc, &other, &open, Denial::WrongPath));
    let closed = rules(alloc, &["http://a"])?;
    let foreign = from_page(alloc, "GET", "/cable", "http://b")?;
    assert!(rt; denies(alloc, &foreign, &closed, Denial::ForeignOrigin));
    Ok(())
}

#[test]
fn the_first_rule_that_is_broken_denies(rt: HostRuntime) -> Result<(), Fail> {
    let alloc = rt.alloc();
    let closed = rules(alloc, &["http://a"])?;
    for (method, target, origin, denial) in [
        ("POST", "/other", "http://b", Denial::WrongMethod),
        ("GET", "/other", "http://b", Denial::WrongPath),
        ("GET", "/cable/", "http://a", Denial::WrongPath),
        ("GET", "/cable", "http://b", Denial::ForeignOrigin),
        ("GET", "/cable", "http://ab", Denial::ForeignOrigin),
    ] {
        let request = from_page(alloc, method, target, origin)?;
        assert!(rt;
            denies(alloc, &request, &closed, denial),
            "{method} {target} {origin}"
        );
    }
    Ok(())
}

#[test]
fn the_first_of_two_origins_counts(rt: HostRuntime) -> Result<(), Fail> {
    let alloc = rt.alloc();
    let closed = rules(alloc, &["http://c", "http://a"])?;
    let own = with_both(alloc, "/cable", "origin", "http://a", "http://b")?;
    assert!(rt; admits(alloc, &own, &closed, "", None));
    let foreign = with_both(alloc, "/cable", "origin", "http://b", "http://a")?;
    assert!(rt; denies(alloc, &foreign, &closed, Denial::ForeignOrigin));
    let silent = Request::get(alloc, "/cable").body(())?;
    assert!(rt; denies(alloc, &silent, &closed, Denial::ForeignOrigin));
    Ok(())
}

#[test]
fn the_first_token_and_the_best_protocol_count(rt: HostRuntime) -> Result<(), Fail> {
    let alloc = rt.alloc();
    let open = rules(alloc, &[])?;
    for (target, token, listed, protocol) in [
        (
            "/cable?token=t1",
            "t1",
            "actioncable-v1-json, actioncable-unsupported",
            Some(Protocol::V1),
        ),
        (
            "/cable?a=1&token=x&token=y",
            "x",
            "actioncable-unsupported ,  actioncable-v1-json ",
            Some(Protocol::V1),
        ),
        (
            "/cable?token=&token=y",
            "",
            "actioncable-v1-json2,actioncable-unsupported",
            Some(Protocol::Unsupported),
        ),
        (
            "/cable?atoken=1&token",
            "",
            "actioncable-unsupported2",
            None,
        ),
        ("/cable?token=a=b%20c", "a=b%20c", "", None),
        ("/cable", "", "actioncable v1-json,", None),
    ] {
        let request = with_both(
            alloc,
            target,
            "Sec-WebSocket-Protocol",
            listed,
            "actioncable-v1-json",
        )?;
        assert!(rt;
            admits(alloc, &request, &open, token, protocol),
            "{target}: {listed}"
        );
    }
    let silent = Request::get(alloc, "/cable?token=t1").body(())?;
    assert!(rt; admits(alloc, &silent, &open, "t1", None));
    Ok(())
}
