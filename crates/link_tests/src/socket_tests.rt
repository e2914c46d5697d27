use crate::loopback::{
    ClientLink, ROUNDS, client, expect, letters, linked, next_of, read_by, sleep,
};
use cable_base::{Millis, Trouble};
use cable_link::{Came, Goodbye, Link, OUTPUT_LIMIT, WsLink};
use std::alloc::Global;
use std::io::Write;
use std::net::TcpStream;
use std::test::Fail;
use std::thread;
use tungstenite::NoMask;

/// How many long texts a server says.
const MANY: u32 = 200;

const LONG: usize = 60_000;

/// How often what waits is handed on to a client that never reads.
const FLUSHES: u64 = 100;

/// Long texts of two kinds, which a server says in turn.
#[derive(Debug, Drop)]
struct LongTexts {
    even: String,
    odd: String,
}

impl LongTexts {
    fn new(alloc: Global) -> Result<LongTexts, Fail> {
        Ok(LongTexts {
            even: letters(alloc, "a", LONG)?,
            odd: letters(alloc, "b", LONG)?,
        })
    }

    /// The text with this number.
    fn at(&self, number: u32) -> &str {
        if number % 2 == 0 {
            self.even.as_str()
        } else {
            self.odd.as_str()
        }
    }
}

/// What a server's end saw of its client.
#[derive(Debug, Drop)]
struct Seen {
    /// The texts, with a blank behind each.
    texts: String,
    quiet: u32,
    passed: u32,
    binaries: u32,
    was_behind: bool,
    closed: bool,
}

impl Seen {
    fn nothing(alloc: Global) -> Seen {
        Seen {
            texts: String::new(alloc),
            quiet: 0,
            passed: 0,
            binaries: 0,
            was_behind: false,
            closed: false,
        }
    }

    /// Notes what came that isn't a text. `is_dry` where nothing more is there.
    fn note(&mut self, came: &Came, is_dry: bool) {
        match came {
            Came::Text(_) => {}
            Came::Binary => self.binaries = self.binaries.saturating_add(1),
            Came::Closed => self.closed = true,
            Came::Quiet => {
                if is_dry {
                    self.quiet = self.quiet.saturating_add(1);
                } else {
                    self.passed = self.passed.saturating_add(1);
                }
            }
        }
    }
}

/// Says many long texts, and answers whether some of them wait then.
fn says_many(link: &mut WsLink<NoMask>, texts: &LongTexts) -> Result<bool, Trouble> {
    for number in 0..MANY {
        link.say(texts.at(number))?;
    }
    Ok(link.is_behind())
}

/// Reads one item. At the text "more" it says many long ones.
fn serves_once(
    link: &mut WsLink<NoMask>,
    texts: &LongTexts,
    seen: &mut Seen,
) -> Result<(), Trouble> {
    let came = link.next()?;
    seen.note(&came, link.is_dry());
    if let Came::Text(text) = came {
        if text.as_str() == "more" {
            seen.was_behind = says_many(link, texts)?;
        } else if seen.texts.push_str(text.as_str()).is_err() || seen.texts.push(' ').is_err() {
            return Err(Trouble::OutOfMemory);
        }
    }
    Ok(())
}

/// Reads until the client has closed or the link fails, and hands on what the client doesn't take at once.
fn serves(rt: &HostRuntime, mut link: WsLink<NoMask>, texts: LongTexts) -> Seen {
    let mut seen = Seen::nothing(rt.alloc());
    for round in 0..ROUNDS {
        if serves_once(&mut link, &texts, &mut seen).is_err() || seen.closed {
            return seen;
        }
        if link.is_behind() && link.flush(Millis(round as u64)).is_err() {
            return seen;
        }
        if link.is_dry() {
            sleep(rt, 1);
        }
    }
    seen
}

/// Gets all the long texts, in order.
fn gets_many(rt: &HostRuntime, link: &mut ClientLink, texts: &LongTexts) -> Result<(), Fail> {
    for number in 0..MANY {
        let Came::Text(text) = next_of(rt, link)? else {
            return Err(Fail::from("no text"));
        };
        expect(text.as_str() == texts.at(number), "the next of the texts")?;
    }
    Ok(())
}

/// Says a text, a frame byte by byte, two frames in one segment, a ping, a message that is no text. Then it asks for many texts, reads
/// them later, and closes.
fn speaks(rt: &HostRuntime, mut there: TcpStream, texts: &LongTexts) -> Result<(), Fail> {
    let mut link = client(rt, &there)?;
    sleep(rt, 30);
    expect(link.say("one").is_ok(), "a text is said")?;
    for byte in &[0x81u8, 0x82, 0, 0, 0, 0, b'h', b'i'] {
        there.write_all(&[*byte])?;
        sleep(rt, 3);
    }
    there.write_all(&[0x81, 0x81, 0, 0, 0, 0, b'x', 0x81, 0x81, 0, 0, 0, 0, b'y'])?;
    there.write_all(&[0x89, 0x81, 0, 0, 0, 0, b'p'])?;
    there.write_all(&[0x82, 0x81, 0, 0, 0, 0, b'z'])?;
    expect(link.say("more").is_ok(), "many texts are asked for")?;
    sleep(rt, 200);
    gets_many(rt, &mut link, texts)?;
    expect(link.close(Goodbye::Ended).is_ok(), "a close is said")?;
    expect(
        matches!(next_of(rt, &mut link)?, Came::Closed),
        "the close is answered",
    )
}

/// Says this text to a peer that never reads, until the link refuses it. Answers how often it was said.
fn fills(link: &mut WsLink<NoMask>, text: &str) -> usize {
    let mut said = 0usize;
    for _ in 0..ROUNDS {
        if link.say(text).is_err() {
            break;
        }
        said = said.saturating_add(1);
    }
    said
}

/// Hands on what waits, a millisecond apart. Answers since when the client has taken none of it.
fn hands_on(rt: &HostRuntime, link: &mut WsLink<NoMask>) -> Option<Millis> {
    for at in 0..FLUSHES {
        if link.flush(Millis(at)).is_err() {
            return None;
        }
        sleep(rt, 1);
    }
    link.behind_since()
}

/// What a server's end saw of a client that never reads.
#[derive(Debug, Drop)]
struct Starved {
    /// Whether texts waited, and a moment since then wasn't known before the first flush.
    was_behind: bool,
    /// Since when the client had taken nothing, at the last flush.
    since: Option<Millis>,
    /// Whether nothing came, while texts waited.
    was_quiet: bool,
    /// How many texts were said before one was refused.
    said: usize,
    /// Whether a shorter one was refused then, for which there is room.
    was_mute: bool,
    /// Whether the link was closed then.
    was_closed: bool,
}

/// Says many texts to a client that never reads, hands on what it takes for a while, and then says more until one is refused.
fn starves(rt: &HostRuntime, mut link: WsLink<NoMask>, texts: LongTexts) -> Starved {
    let waits = says_many(&mut link, &texts) == Ok(true);
    let was_behind = waits && link.behind_since().is_none();
    let since = hands_on(rt, &mut link);
    let was_quiet = link.next() == Ok(Came::Quiet) && link.is_dry();
    let said = fills(&mut link, texts.at(0)).saturating_add(MANY as usize);
    let was_mute = link.say("x") == Err(Trouble::Failed);
    let was_closed = link.next() == Ok(Came::Closed);
    Starved {
        was_behind,
        since,
        was_quiet,
        said,
        was_mute,
        was_closed,
    }
}

#[test]
fn both_ends_of_a_link_over_loopback(rt: HostRuntime) -> Result<(), Fail> {
    let alloc = rt.alloc();
    let texts = LongTexts::new(alloc)?;
    let (link, there) = linked(&rt)?;
    let (at_server, said) = (rt.clone()?, LongTexts::new(alloc)?);
    let server = thread::spawn(&rt, move || serves(&at_server, link, said))?;
    let spoken = speaks(&rt, there, &texts);
    let seen = server.join(&rt);
    spoken?;
    assert_eq!(rt; seen.texts.as_str(), "one hi x y ");
    assert!(rt; seen.quiet > 2);
    assert_eq!(rt; (seen.passed, seen.binaries), (1, 1));
    assert!(rt; seen.was_behind);
    assert!(rt; seen.closed);

    let (link, mute) = linked(&rt)?;
    let (at_server, said) = (rt.clone()?, LongTexts::new(alloc)?);
    let server = thread::spawn(&rt, move || starves(&at_server, link, said))?;
    let starved = server.join(&rt);
    drop(mute);
    assert!(rt; starved.was_behind && starved.was_quiet);
    assert!(rt; starved.was_mute && starved.was_closed);
    assert!(rt; matches!(starved.since, Some(at) if at < Millis(FLUSHES / 2)));
    assert!(rt; starved.said >= OUTPUT_LIMIT / LONG);
    assert!(rt; starved.said < 2 * OUTPUT_LIMIT / LONG);
    Ok(())
}

/// The moment since when a client has taken nothing stays while it takes nothing, and is a new one once it has taken some.
#[test]
fn a_slow_client_begins_anew_where_it_takes_some(rt: HostRuntime) -> Result<(), Fail> {
    let (mut link, mut there) = linked(&rt)?;
    assert!(rt; says_many(&mut link, &LongTexts::new(rt.alloc())?)?);
    assert!(rt; matches!(hands_on(&rt, &mut link), Some(at) if at < Millis(FLUSHES / 2)));
    for _ in 0..1000u32 {
        read_by::<1000>(&mut there)?;
    }
    sleep(&rt, 20);
    assert_eq!(rt; link.flush(Millis(5000)), Ok(()));
    assert!(rt; link.is_behind());
    assert_eq!(rt; link.behind_since(), Some(Millis(5000)));
    Ok(())
}

/// A ping is answered at once, and a close says why, by the codes of RFC 6455 (section 7.4.1).
#[test]
fn pongs_and_closes_as_they_are_sent(rt: HostRuntime) -> Result<(), Fail> {
    let (mut link, mut there) = linked(&rt)?;
    there.write_all(&[0x89, 0x81, 0, 0, 0, 0, b'p'])?;
    sleep(&rt, 20);
    assert_eq!(rt; link.next(), Ok(Came::Quiet));
    assert_eq!(rt; read_by::<3>(&mut there)?, [0x8a, 0x01, b'p']);
    for (why, code) in [
        (Goodbye::Ended, 1000u16),
        (Goodbye::TooLong, 1009),
        (Goodbye::NoMemory, 1011),
    ] {
        let (mut link, mut there) = linked(&rt)?;
        assert_eq!(rt; link.close(why), Ok(()));
        let [high, low] = code.to_be_bytes();
        assert_eq!(rt; read_by::<4>(&mut there)?, [0x88, 0x02, high, low]);
        assert_eq!(rt; link.say("late"), Err(Trouble::Failed));
    }
    Ok(())
}
