use crate::loopback::{ClientLink, ROUNDS, client, letters, linked, next_of, read_by, sleep};
use cable_base::{Millis, Trouble};
use cable_link::{Came, Goodbye, Link, MESSAGE_LIMIT, WsLink};
use std::io::{Read, Write};
use std::test::Fail;
use tungstenite::NoMask;

/// A text that is longer than a command may be is given; one beyond the limit of a link is a fault, and the client is told so.
#[test]
fn a_message_beyond_the_limit_is_a_fault(rt: HostRuntime) -> Result<(), Fail> {
    let alloc = rt.alloc();
    let (mut link, there) = linked(&rt)?;
    let mut client = client(&rt, &there)?;
    let longest = letters(alloc, "a", MESSAGE_LIMIT)?;
    assert!(rt; client.say(longest.as_str()).is_ok());
    assert!(rt;
        matches!(come_of(&rt, &mut link, &mut client), Ok(Came::Text(text)) if text.as_str() == longest.as_str())
    );
    let longer = letters(alloc, "a", MESSAGE_LIMIT + 1)?;
    assert!(rt; client.say(longer.as_str()).is_ok());
    assert!(rt; matches!(come_of(&rt, &mut link, &mut client), Err(Trouble::Failed)));
    assert!(rt; link.is_too_long());
    assert!(rt; link.close(Goodbye::TooLong).is_ok());
    assert!(rt; matches!(link.next(), Ok(Came::Closed)));
    assert_eq!(rt; next_of(&rt, &mut client)?, Came::Closed);
    Ok(())
}

/// What comes next that isn't quiet, while the client's output is handed on.
fn come_of(
    rt: &HostRuntime,
    link: &mut WsLink<NoMask>,
    client: &mut ClientLink,
) -> Result<Came, Trouble> {
    for _ in 0..ROUNDS {
        client.flush(Millis(0))?;
        match link.next()? {
            Came::Quiet => sleep(rt, 1),
            came => return Ok(came),
        }
    }
    Ok(Came::Quiet)
}

/// What is answered first, behind what is quiet.
fn first_of(rt: &HostRuntime, link: &mut WsLink<NoMask>) -> Result<Result<Came, Trouble>, Fail> {
    for _ in 0..ROUNDS {
        match link.next() {
            Ok(Came::Quiet) => sleep(rt, 1),
            first => return Ok(first),
        }
    }
    Err(Fail::from("nothing came"))
}

/// Whether a fault is what comes next, and from then on the link is closed.
fn is_told_once(rt: &HostRuntime, link: &mut WsLink<NoMask>) -> Result<bool, Fail> {
    if first_of(rt, link)? != Err(Trouble::Failed) {
        return Ok(false);
    }
    Ok(link.next() == Ok(Came::Closed) && link.next() == Ok(Came::Closed))
}

/// A frame without a mask, one of no known kind, a text that isn't UTF-8, the end inside a frame, and the end without a close are each told
/// once as a fault; behind it the link is closed.
#[test]
fn a_broken_stream_is_told_once(rt: HostRuntime) -> Result<(), Fail> {
    let broken = [
        &[0x81u8, 0x01, b'a'] as &[u8],
        &[0x83, 0x80, 0, 0, 0, 0],
        &[0x81, 0x81, 0, 0, 0, 0, 0xff],
        &[0x81, 0x82, 0, 0, 0, 0, b'h'],
        &[],
    ];
    for bytes in &broken {
        let (mut link, mut there) = linked(&rt)?;
        there.write_all(bytes)?;
        drop(there);
        assert!(rt; is_told_once(&rt, &mut link)?);
    }
    Ok(())
}

/// A client that goes while a text waits for it unread resets its connection.
#[test]
fn a_reset_is_told_once(rt: HostRuntime) -> Result<(), Fail> {
    let (mut link, there) = linked(&rt)?;
    assert_eq!(rt; link.say("unread"), Ok(()));
    sleep(&rt, 20);
    drop(there);
    assert!(rt; is_told_once(&rt, &mut link)?);
    assert!(rt; link.has_failed());
    assert_eq!(rt; link.say("late"), Err(Trouble::Failed));
    // Nothing waits in the link, so there is nothing to fail at; a close would have to be written.
    assert_eq!(rt; link.flush(Millis(1)), Ok(()));
    assert_eq!(rt; link.close(Goodbye::Ended), Err(Trouble::Failed));
    assert_eq!(rt; link.flush(Millis(2)), Err(Trouble::Failed));
    Ok(())
}

/// A link whose client broke the protocol says no text any more, and still tells why it closes, once.
#[test]
fn a_link_that_has_failed_says_only_why_it_closes(rt: HostRuntime) -> Result<(), Fail> {
    let (mut link, mut there) = linked(&rt)?;
    there.write_all(&[0x81, 0x01, b'a'])?;
    assert!(rt; is_told_once(&rt, &mut link)?);
    assert_eq!(rt; link.say("late"), Err(Trouble::Failed));
    assert_eq!(rt; link.flush(Millis(1)), Ok(()));
    assert_eq!(rt; link.close(Goodbye::NoMemory), Ok(()));
    assert_eq!(rt; link.close(Goodbye::Ended), Ok(()));
    assert_eq!(rt; link.say("later"), Err(Trouble::Failed));
    drop(link);
    assert_eq!(rt; read_by::<4>(&mut there)?, [0x88, 0x02, 0x03, 0xf3]);
    assert_eq!(rt; there.read(&mut [0u8; 1])?, 0);
    Ok(())
}

/// What is said to a client that has closed is refused. What waits is nothing, and the close was answered.
#[test]
fn nothing_is_said_to_a_client_that_has_closed(rt: HostRuntime) -> Result<(), Fail> {
    let (mut link, mut there) = linked(&rt)?;
    there.write_all(&[0x88, 0x82, 0, 0, 0, 0, 0x03, 0xe8])?;
    assert_eq!(rt; first_of(&rt, &mut link)?, Ok(Came::Closed));
    assert!(rt; !link.has_failed());
    assert_eq!(rt; link.flush(Millis(1)), Ok(()));
    assert_eq!(rt; link.close(Goodbye::TooLong), Ok(()));
    assert_eq!(rt; link.say("late"), Err(Trouble::Failed));
    assert_eq!(rt; link.next(), Ok(Came::Closed));
    drop(link);
    assert_eq!(rt; read_by::<4>(&mut there)?, [0x88, 0x02, 0x03, 0xe8]);
    assert_eq!(rt; there.read(&mut [0u8; 1])?, 0);
    Ok(())
}
