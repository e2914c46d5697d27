use crate::stops::Stop;
use cable_link::{Came, CountedStream, Link, WsLink, socket_config};
use mio::net::TcpStream as Quick;
use std::alloc::Global;
use std::io::Write;
use std::net::{Net, TcpListener, TcpStream};
use std::sync::Wait;
use std::thread;
use std::time::{Clock, Duration};
use tungstenite::{NoMask, Role, WebSocket};

/// How often a link is asked for its text, a millisecond apart, before a run is given up.
const LOOKS: u32 = 5_000;

/// What each link has read.
#[derive(Clone, Copy)]
pub enum Heard {
    Nothing,
    Short,
    Long,
}

impl Heard {
    /// The head of the frame that a client sends, with a mask of zeros (RFC 6455, section 5.2), and the length of the text.
    fn frame(self) -> (&'static [u8], usize) {
        match self {
            Heard::Nothing => (&[], 0),
            Heard::Short => (&[0x81, 0x80 | 100, 0, 0, 0, 0], 100),
            Heard::Long => (&[0x81, 0x80 | 126, 0xea, 0x60, 0, 0, 0, 0], 60_000),
        }
    }
}

/// A server's link, and its client's stream.
#[derive(Drop)]
struct Client {
    link: WsLink<NoMask>,
    there: TcpStream,
}

fn connect<R: Net<Listener = TcpListener, Stream = TcpStream>>(
    rt: &R,
    alloc: Global,
    listener: &TcpListener,
) -> Result<Client, Stop> {
    let port = listener.local_addr()?.port();
    let there = TcpStream::connect(rt, ("127.0.0.1", port))?;
    let (here, _) = listener.accept()?;
    here.set_nonblocking(true)?;
    let stream = CountedStream::on(Quick::from_std(here));
    let config = Some(socket_config());
    let socket = WebSocket::from_raw_socket(alloc, stream, NoMask, Role::Server, config);
    let link = WsLink::on(alloc, socket);
    Ok(Client { link, there })
}

impl Client {
    /// Asks the link until a text comes, and answers its length.
    fn hear<R: Wait + Clock>(&mut self, rt: &R) -> Result<usize, Stop> {
        for _ in 0..LOOKS {
            if let Came::Text(text) = self.link.next()? {
                return Ok(text.as_str().len());
            }
            thread::sleep(rt, Duration::from_millis(1));
        }
        Err(Stop::Late)
    }

    /// Sends a frame, where there is one, and answers the length of the text that comes of it.
    fn send<R: Wait + Clock>(&mut self, rt: &R, frame: &[u8]) -> Result<usize, Stop> {
        if frame.is_empty() {
            return Ok(0);
        }
        self.there.write_all(frame)?;
        self.hear(rt)
    }
}

/// Opens so many links, of which each reads so much, and keeps them until the last has read. They take two descriptors each.
pub fn measure<R: Net<Listener = TcpListener, Stream = TcpStream> + Wait + Clock + Print>(
    rt: &R,
    alloc: Global,
    heard: Heard,
    links: usize,
) -> Result<(), Stop> {
    let (head, len) = heard.frame();
    let mut frame = head.to_vec(alloc)?;
    frame.resize(head.len().saturating_add(len), b'x')?;
    let listener = TcpListener::bind(rt, ("127.0.0.1", 0))?;
    let mut clients = Vec::with_capacity(alloc, links)?;
    let mut bytes = 0usize;
    for _ in 0..links {
        let mut client = connect(rt, alloc, &listener)?;
        bytes = bytes.saturating_add(client.send(rt, frame.as_slice())?);
        clients.push(client)?;
    }
    println!(rt; "{links} links have read {bytes} bytes")?;
    Ok(())
}
