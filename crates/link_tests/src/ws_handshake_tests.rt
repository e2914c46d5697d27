use crate::loopback::{pair, sleep};
use cable_base::{Listed, OutOfMemory, Text};
use std::alloc::Global;
use std::io::{Read, Write};
use std::net::TcpStream;
use std::sync::Arc;
use std::test::Fail;
use ws_gate::{Denial, Protocol, Rules};
use ws_handshake::{Shake, Shaken};

/// What a client asks behind the first line. The key is that of RFC 6455, section 1.3.
const ASKED: &str =
    "Host: a\r\nUpgrade: websocket\r\nConnection: Upgrade\r\nSec-WebSocket-Key: dGhlIHNhbXBsZSBub25jZQ==\r\nSec-WebSocket-Version: 13\r\n\r\n";

/// The accept key that section 1.3 has for it.
const ACCEPTED: &str = "s3pPLMBiTxaQ9kYGzzhZRbK+xOo=";

/// The rules of a server at `/cable` that names no origins.
fn rules(alloc: Global) -> Result<Arc<Rules, Global>, OutOfMemory> {
    let rules = Rules {
        path: Text::new(alloc, "/cable")?,
        origins: Listed::empty(alloc),
    };
    Ok(Arc::new(alloc, rules)?)
}

/// A handshake that has begun, and the client's end.
fn begun(rt: &HostRuntime) -> Result<(Shake, TcpStream), Fail> {
    let (here, there) = pair(rt)?;
    Ok((Shake::begin(rt.alloc(), here, &rules(rt.alloc())?)?, there))
}

/// Goes on with a handshake that waits.
fn go_on(rt: &HostRuntime, shaken: Shaken) -> Shaken {
    sleep(rt, 20);
    match shaken {
        Shaken::Waits(shake) => shake.go_on(),
        done => done,
    }
}

/// The end of a handshake of which these parts come one by one. The first of them but the last must leave it waiting.
fn shaken_by(rt: &HostRuntime, parts: &[&str]) -> Result<(Shaken, TcpStream), Fail> {
    let (shake, mut there) = begun(rt)?;
    let mut shaken = shake.go_on();
    for part in parts {
        if !matches!(shaken, Shaken::Waits(_)) {
            return Err(Fail::from("a handshake that ended early"));
        }
        there.write_all(part.as_bytes())?;
        shaken = go_on(rt, shaken);
    }
    Ok((shaken, there))
}

/// The head of the server's answer.
fn answer(alloc: Global, there: &mut TcpStream) -> Result<String, Fail> {
    let mut head = Vec::new(alloc);
    let mut byte = [0u8; 1];
    for _ in 0..4096u32 {
        if there.read(&mut byte)? == 0 {
            break;
        }
        head.push(byte[0])?;
        if head.ends_with(b"\r\n\r\n") {
            break;
        }
    }
    match String::from_utf8(head) {
        Ok(head) => Ok(head),
        Err(_) => Err(Fail::from("an answer that is no text")),
    }
}

#[test]
fn a_handshake_waits_for_its_request_and_is_admitted(rt: HostRuntime) -> Result<(), Fail> {
    let alloc = rt.alloc();
    let first =
        "GET /cable?token=t1 HTTP/1.1\r\nSec-WebSocket-Protocol: actioncable-v1-json, actioncable-unsupported\r\n";
    let (shaken, mut there) = shaken_by(&rt, &["GET /ca", &first[7..], ASKED])?;
    let Shaken::Done(link, admission) = shaken else {
        return Err(Fail::from("a request that wasn't admitted"));
    };
    assert_eq!(rt; admission.token.as_str(), "t1");
    assert_eq!(rt; admission.protocol, Some(Protocol::V1));
    let head = answer(alloc, &mut there)?;
    assert!(rt; head.starts_with("HTTP/1.1 101 "));
    assert!(rt; head.contains(ACCEPTED));
    assert!(rt; head.contains("sec-websocket-protocol: actioncable-v1-json\r\n"));
    drop(link);
    Ok(())
}

#[test]
fn an_answer_names_a_protocol_only_where_one_was_listed(rt: HostRuntime) -> Result<(), Fail> {
    let (shaken, mut there) = shaken_by(&rt, &["GET /cable HTTP/1.1\r\n", ASKED])?;
    let Shaken::Done(link, admission) = shaken else {
        return Err(Fail::from("a request that wasn't admitted"));
    };
    assert_eq!(rt; admission.token.as_str(), "");
    assert_eq!(rt; admission.protocol, None);
    let head = answer(rt.alloc(), &mut there)?;
    assert!(rt; head.starts_with("HTTP/1.1 101 "));
    assert!(rt; !head.contains("sec-websocket-protocol"));
    drop(link);
    Ok(())
}

#[test]
fn a_denied_request_is_answered_with_404(rt: HostRuntime) -> Result<(), Fail> {
    let (shaken, mut there) = shaken_by(&rt, &["GET /other?token=t1 HTTP/1.1\r\n", ASKED])?;
    let Shaken::Denied(denial) = shaken else {
        return Err(Fail::from("a request that wasn't denied"));
    };
    assert_eq!(rt; denial, Denial::WrongPath);
    let head = answer(rt.alloc(), &mut there)?;
    assert!(rt; head.starts_with("HTTP/1.1 404 "));
    let mut more = [0u8; 1];
    assert_eq!(rt; there.read(&mut more)?, 0);
    Ok(())
}

/// No upgrade, bytes that are no request, and a client that goes in the middle.
#[test]
fn what_is_no_handshake_fails(rt: HostRuntime) -> Result<(), Fail> {
    let (shaken, _there) = shaken_by(&rt, &["GET /cable HTTP/1.1\r\nHost: a\r\n\r\n"])?;
    assert!(rt; matches!(shaken, Shaken::Failed));
    let (shaken, _there) = shaken_by(&rt, &["\u{1}\u{2}\u{3}\r\n\r\n"])?;
    assert!(rt; matches!(shaken, Shaken::Failed));
    let (shaken, there) = shaken_by(&rt, &["GET /cable HTTP/1.1\r\n"])?;
    drop(there);
    assert!(rt; matches!(go_on(&rt, shaken), Shaken::Failed));
    Ok(())
}
