use cable_link::{Came, CountedStream, Link, WsLink, socket_config};
use mio::net::TcpStream as Quick;
use std::alloc::Global;
use std::io::{Read, Write};
use std::net::{TcpListener, TcpStream};
use std::test::Fail;
use std::thread;
use std::time::Duration;
use tungstenite::{NoMask, RandomKeys, Role, WebSocket};

/// How many times something is looked for before a test gives up, a millisecond apart.
pub(crate) const ROUNDS: u32 = 20_000;

/// The two ends of a connection over loopback: the server's doesn't block.
pub(crate) fn pair(rt: &HostRuntime) -> Result<(Quick, TcpStream), Fail> {
    let listener = TcpListener::bind(rt, ("127.0.0.1", 0))?;
    let port = listener.local_addr()?.port();
    let there = TcpStream::connect(rt, ("127.0.0.1", port))?;
    let (here, _) = listener.accept()?;
    here.set_nonblocking(true)?;
    Ok((Quick::from_std(here), there))
}

/// The server's link, and the client's stream.
pub(crate) fn linked(rt: &HostRuntime) -> Result<(WsLink<NoMask>, TcpStream), Fail> {
    let (here, there) = pair(rt)?;
    let stream = CountedStream::on(here);
    let config = Some(socket_config());
    let socket = WebSocket::from_raw_socket(rt.alloc(), stream, NoMask, Role::Server, config);
    Ok((WsLink::on(rt.alloc(), socket), there))
}

/// A client's link.
pub(crate) type ClientLink = WsLink<RandomKeys<HostRuntime>>;

/// The client's link over its stream, which doesn't block from now on.
pub(crate) fn client(rt: &HostRuntime, there: &TcpStream) -> Result<ClientLink, Fail> {
    let stream = there.try_clone()?;
    stream.set_nonblocking(true)?;
    let keys = RandomKeys::new(rt.clone()?);
    let config = Some(socket_config());
    let stream = CountedStream::on(Quick::from_std(stream));
    let socket = WebSocket::from_raw_socket(rt.alloc(), stream, keys, Role::Client, config);
    Ok(WsLink::on(rt.alloc(), socket))
}

/// Sleeps for so many milliseconds.
pub(crate) fn sleep(rt: &HostRuntime, millis: u64) {
    thread::sleep(rt, Duration::from_millis(millis));
}

/// What a client reads of so many bytes that the server said.
pub(crate) fn read_by<const N: usize>(there: &mut TcpStream) -> Result<[u8; N], Fail> {
    let mut bytes = [0u8; N];
    there.read_exact(&mut bytes)?;
    Ok(bytes)
}

/// Fails a test where this doesn't hold.
pub(crate) fn expect(holds: bool, what: &'static str) -> Result<(), Fail> {
    if holds { Ok(()) } else { Err(Fail::from(what)) }
}

/// A text of so many letters.
pub(crate) fn letters(alloc: Global, letter: &str, len: usize) -> Result<String, Fail> {
    Ok(letter.repeat(alloc, len)?)
}

/// What comes next that isn't quiet.
pub(crate) fn next_of(rt: &HostRuntime, link: &mut ClientLink) -> Result<Came, Fail> {
    for _ in 0..ROUNDS {
        match link.next() {
            Ok(Came::Quiet) => {
                if link.is_dry() {
                    sleep(rt, 1);
                }
            }
            Ok(came) => return Ok(came),
            Err(_) => return Err(Fail::from("the client's link failed")),
        }
    }
    Err(Fail::from("nothing came"))
}
