use crate::stops::Stop;
use cable_base::Millis;
use cable_link::{Came, CountedStream, Link, WsLink, socket_config};
use mio::net::TcpStream as Quick;
use mio::{Events, Interest, Poll, Token};
use std::alloc::Global;
use std::net::{Net, TcpListener, TcpStream};
use std::time::Duration;
use tungstenite::{MaskKeys, NoMask, Role, WebSocket};

/// How many seconds an end waits for its peer before a run is given up.
const LONGEST_WAIT: u64 = 5;

/// How often an end looks for one text, or hands on one, before a run is given up. Each look but the first follows something that its peer did.
const LOOKS: u32 = 100_000;

/// One end of a connection over loopback, with what it waits by.
#[derive(Drop)]
pub struct End<K> {
    link: WsLink<K>,
    poll: Poll,
    events: Events,
}

/// The two ends of a connection: the server's, and that of a client with these keys.
pub fn ends<R: Net<Listener = TcpListener, Stream = TcpStream>, K: MaskKeys + Drop>(
    rt: &R,
    alloc: Global,
    keys: K,
) -> Result<(End<NoMask>, End<K>), Stop> {
    let listener = TcpListener::bind(rt, ("127.0.0.1", 0))?;
    let port = listener.local_addr()?.port();
    let there = TcpStream::connect(rt, ("127.0.0.1", port))?;
    let (here, _) = listener.accept()?;
    let server = End::on(rt, alloc, here, NoMask, Role::Server)?;
    let client = End::on(rt, alloc, there, keys, Role::Client)?;
    Ok((server, client))
}

impl<K: MaskKeys + Drop> End<K> {
    fn on<R: Net>(
        rt: &R,
        alloc: Global,
        stream: TcpStream,
        keys: K,
        role: Role,
    ) -> Result<End<K>, Stop> {
        stream.set_nonblocking(true)?;
        stream.set_nodelay(true)?;
        let stream = CountedStream::on(Quick::from_std(stream));
        let config = Some(socket_config());
        let socket = WebSocket::from_raw_socket(alloc, stream, keys, role, config);
        let mut link = WsLink::on(alloc, socket);
        let poll = Poll::new(rt)?;
        let interest = Interest::READABLE.add(Interest::WRITABLE);
        poll.registry().register(link.stream(), Token(0), interest)?;
        let events = Events::with_capacity(alloc, 1)?;
        Ok(End { link, poll, events })
    }

    /// Waits until something can be read or written that couldn't before.
    fn wait(&mut self) -> Result<(), Stop> {
        let longest = Duration::from_secs(LONGEST_WAIT);
        self.poll.poll(&mut self.events, Some(longest))?;
        if self.events.is_empty() {
            return Err(Stop::Late);
        }
        Ok(())
    }

    /// Hands on what waits in the link, until its peer has taken all.
    fn hand_on(&mut self) -> Result<(), Stop> {
        for _ in 0..LOOKS {
            if !self.link.is_behind() {
                return Ok(());
            }
            self.wait()?;
            self.link.flush(Millis(0))?;
        }
        Err(Stop::Late)
    }

    /// Says a text so many times.
    pub fn say(&mut self, text: &str, count: u64) -> Result<(), Stop> {
        for _ in 0..count {
            self.link.say(text)?;
            self.hand_on()?;
        }
        Ok(())
    }

    /// The length of the text that comes next.
    fn hear_one(&mut self) -> Result<usize, Stop> {
        for _ in 0..LOOKS {
            match self.link.next()? {
                Came::Text(text) => return Ok(text.as_str().len()),
                Came::Closed => return Err(Stop::LinkFault),
                Came::Binary => {}
                Came::Quiet => {
                    if self.link.is_dry() {
                        self.wait()?;
                    }
                }
            }
        }
        Err(Stop::Late)
    }

    /// Reads so many texts, and answers how many bytes they had in all.
    pub fn hear(&mut self, count: u64) -> Result<usize, Stop> {
        let mut bytes = 0usize;
        for _ in 0..count {
            bytes = bytes.saturating_add(self.hear_one()?);
        }
        Ok(bytes)
    }
}
