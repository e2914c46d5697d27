use crate::ends::{End, ends};
use crate::stops::Stop;
use std::alloc::Global;
use std::io::Eprint;
use std::net::{Net, TcpListener, TcpStream};
use std::random::RandomSource;
use std::thread::Threads;
use std::time::{Clock, Instant};
use std::{io, thread};
use tungstenite::{MaskKeys, RandomKeys};

/// Texts of one length, and how many of them go each way.
#[derive(Clone, Copy)]
pub struct Load {
    pub bytes: usize,
    pub count: u64,
}

/// Tells how many texts a second went since the start.
fn tell<R: Eprint + Clock>(rt: &R, way: &str, load: Load, start: Instant) -> io::Result<()> {
    let micros = start.elapsed(rt)?.as_micros().max(1);
    let rate = u128::from(load.count) * 1_000_000 / micros;
    let bytes = load.bytes;
    eprintln!(rt; "texts of {bytes} bytes {way}: {rate} a second")
}

/// Says the text at one end and reads it at the other, each in a thread. Answers how many bytes were read.
fn send<R: Threads, K: MaskKeys + Drop + Send, M: MaskKeys + Drop + Send>(
    rt: &R,
    from: &mut End<K>,
    to: &mut End<M>,
    text: &str,
    count: u64,
) -> Result<usize, Stop> {
    let (said, heard) = thread::join(rt, || from.say(text, count), || to.hear(count));
    said?;
    heard
}

/// Measures texts that go from a server to its client, and then the other way.
pub fn measure<
    R: Net<Listener = TcpListener, Stream = TcpStream>
        + Threads
        + Clock
        + Print
        + Eprint
        + RandomSource
        + Clone
        + Drop
        + Send,
>(rt: &R, alloc: Global, load: Load) -> Result<(), Stop> {
    let Load { bytes, count } = load;
    let text = "x".repeat(alloc, bytes)?;
    let keys = RandomKeys::new(rt.clone()?);
    let (mut server, mut client) = ends(rt, alloc, keys)?;

    let start = Instant::now(rt)?;
    let heard = send(rt, &mut server, &mut client, text.as_str(), count)?;
    tell(rt, "to a client", load, start)?;
    println!(rt; "{count} texts of {bytes} bytes to a client: {heard} bytes were read")?;

    let start = Instant::now(rt)?;
    let heard = send(rt, &mut client, &mut server, text.as_str(), count)?;
    tell(rt, "from a client", load, start)?;
    println!(rt; "{count} texts of {bytes} bytes from a client: {heard} bytes were read")?;
    Ok(())
}
