ghost use Rattle.std.specs.Prelude.{◌≡◌};
ghost use Rattle.std.specs.Io.{ReadsAtMost, WritesAtMost};
ghost use Rattle.cable_link.specs.Counted.{counted_on};

use mio::net::TcpStream;
use std::io;
use std::io::{Read, Write};

/// A stream that counts the bytes that it took of what was written. A count that stands at 2^64 - 1 stays there.
#[derive(Drop)]
pub struct CountedStream {
    stream: TcpStream,
    taken: u64,
}

impl CountedStream {
    /// Counts from here on.
    pub fn on(stream: TcpStream) -> CountedStream
        ensures { result.taken ≡ 0 }
    {
        CountedStream { stream, taken: 0 }
    }

    /// How many bytes it took.
    pub fn taken(&self) -> u64
        ensures { result ≡ self.now.taken }
    {
        self.taken
    }

    /// The stream, to be registered where readiness is waited for.
    pub fn stream(&mut self) -> &mut TcpStream {
        &mut self.stream
    }
}

impl Read for CountedStream {
    fn read(&mut self, buf: &mut [u8]) -> io::Result<usize>
        ensures bound { ReadsAtMost result buf.new }
        ensures taken { self.new.taken ≡ self.old.taken }
    {
        self.stream.read(buf)
    }
}

impl Write for CountedStream {
    fn write(&mut self, buf: &[u8]) -> io::Result<usize>
        ensures bound { WritesAtMost result buf.now }
        ensures taken { self.new.taken ≡ counted_on self.old.taken result }
    {
        let written = self.stream.write(buf)?;
        self.taken = self.taken.saturating_add(written as u64);
        Ok(written)
    }

    fn flush(&mut self) -> io::Result<()>
        ensures taken { self.new.taken ≡ self.old.taken }
    {
        self.stream.flush()
    }
}
