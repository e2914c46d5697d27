ghost use Rattle.std.specs.Prelude.{◌≡◌, None};

use crate::faults::{Failed, Trouble};
use crate::streams::{Sink, Source};
use std::io::{Read, Write};

/// A source over a reader, such as standard input. It tells no bytes, and counts each error and each end.
#[derive(Drop)]
pub struct StdSource<R> {
    reader: R,
    faults: u64,
    ends: u64,
}

impl<R: Read> StdSource<R> {
    /// A source that gives what this reader gives. It has counted no error and no end yet.
    pub fn on(reader: R) -> StdSource<R>
        ensures faults { ⟦<StdSource<R> as Source>⟧.faults result ≡ 0 }
        ensures ends { ⟦<StdSource<R> as Source>⟧.ends result ≡ 0 }
    {
        StdSource {
            reader,
            faults: 0,
            ends: 0,
        }
    }
}

impl<R: Read> Source for StdSource<R> {
    ghost left = { λ _. None };

    ghost faults = { λ s. s.faults };

    ghost ends = { λ s. s.ends };

    fn next_piece(&mut self, buf: &mut [u8]) -> Result<usize, Failed> {
        match self.reader.read(buf) {
            Ok(count) => {
                if count == 0 && !buf.is_empty() {
                    self.ends = self.ends.saturating_add(1);
                }
                Ok(count)
            }
            Err(_) => {
                self.faults = self.faults.saturating_add(1);
                Err(Failed)
            }
        }
    }
}

/// A sink over a writer, such as standard output. It tells no bytes. It counts each error, and a write that takes nothing of a
/// piece that isn't empty as one.
#[derive(Drop)]
pub struct StdSink<W> {
    writer: W,
    faults: u64,
}

impl<W: Write> StdSink<W> {
    /// A sink that hands what it takes to this writer. It has counted no error yet.
    pub fn on(writer: W) -> StdSink<W>
        ensures { ⟦<StdSink<W> as Sink>⟧.faults result ≡ 0 }
    {
        StdSink { writer, faults: 0 }
    }
}

impl<W: Write> Sink for StdSink<W> {
    ghost taken = { λ _. None };

    ghost faults = { λ s. s.faults };

    fn put(&mut self, bytes: &[u8]) -> Result<usize, Trouble> {
        if let Ok(count) = self.writer.write(bytes)
            && (count > 0 || bytes.is_empty())
        {
            return Ok(count);
        }
        self.faults = self.faults.saturating_add(1);
        Err(Trouble::Failed)
    }
}

#[cfg(test)]
mod tests {
    use super::*;
    use std::io;
    use std::test::Fail;

    /// A reader and writer that refuses each call.
    #[derive(Drop)]
    struct Broken;

    impl Read for Broken {
        fn read(&mut self, _buf: &mut [u8]) -> io::Result<usize> {
            Err(io::Error::from(io::ErrorKind::BrokenPipe))
        }
    }

    impl Write for Broken {
        fn write(&mut self, _buf: &[u8]) -> io::Result<usize> {
            Err(io::Error::from(io::ErrorKind::BrokenPipe))
        }

        fn flush(&mut self) -> io::Result<()> {
            Ok(())
        }
    }

    #[test]
    fn a_reader_is_a_source(rt: HostRuntime) {
        let mut source = StdSource::on(b"abc".as_slice());
        let mut buf = [0; 2];
        assert_eq!(rt; source.next_piece(&mut buf), Ok(2));
        assert_eq!(rt; &buf, b"ab");
        assert_eq!(rt; source.next_piece(&mut buf), Ok(1));
        assert_eq!(rt; &buf, b"cb");
        assert_eq!(rt; source.next_piece(&mut []), Ok(0));
        assert_eq!(rt; source.ends, 0);
        assert_eq!(rt; source.next_piece(&mut buf), Ok(0));
        assert_eq!(rt; (source.faults, source.ends), (0, 1));

        let mut broken = StdSource::on(Broken);
        assert_eq!(rt; broken.next_piece(&mut buf), Err(Failed));
        assert_eq!(rt; (broken.faults, broken.ends), (1, 0));
    }

    #[test]
    fn a_writer_is_a_sink(rt: HostRuntime) {
        let mut sink = StdSink::on(Vec::new(rt.alloc()));
        assert_eq!(rt; sink.put(b"ab"), Ok(2));
        assert_eq!(rt; sink.put(b""), Ok(0));
        assert_eq!(rt; sink.put(b"c"), Ok(1));
        assert_eq!(rt; sink.writer.as_slice(), b"abc".as_slice());
        assert_eq!(rt; sink.faults, 0);

        let mut room = [0; 1];
        let mut full = StdSink::on(room.as_mut_slice());
        assert_eq!(rt; full.put(b"ab"), Ok(1));
        assert_eq!(rt; full.put(b"b"), Err(Trouble::Failed));
        assert_eq!(rt; full.faults, 1);

        let mut broken = StdSink::on(Broken);
        assert_eq!(rt; broken.put(b"a"), Err(Trouble::Failed));
        assert_eq!(rt; broken.faults, 1);
    }
}
