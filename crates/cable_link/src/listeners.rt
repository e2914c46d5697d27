ghost use Rattle.std.specs.Prelude.{◌≡◌, ◌≤◌};
ghost use Rattle.cable_base.specs.Causes.{Rose};

use crate::doors::{Door, Entered};
use cable_base::Failed;
use mio::net::TcpListener;
use mio::{Events, Interest, Poll, Token};
use std::alloc::Global;
use std::io;
use std::io::ErrorKind;
use std::net::Net;
use std::sync::Arc;
use std::sync::atomic::{AtomicBool, Ordering};
use std::time::Duration;

/// The system's numbers for: no memory, no descriptor left in the system or in the process, no buffer space. Linux has them in `errno.h`.
const SHORTAGES: [i32; 4] = [12, 23, 24, 105];

/// A door over a listener.
///
/// A socket whose client went before it was accepted, and a shortage of the system that may pass, are no faults: nobody came.
#[derive(Drop)]
pub struct ListenerDoor {
    listener: TcpListener,
    poll: Poll,
    events: Events,
    wait: Duration,
    stop: Arc<AtomicBool, Global>,
    sockets: u64,
    faults: u64,
}

/// Whether nobody came for once: the client went before its socket was accepted, or a signal came.
fn came_to_nothing(error: &io::Error) -> bool {
    matches!(
        error.kind(),
        ErrorKind::ConnectionAborted | ErrorKind::ConnectionReset | ErrorKind::Interrupted
    )
}

/// Whether there is nobody for now, or no room.
fn is_to_wait(error: &io::Error) -> bool {
    if error.kind() == ErrorKind::WouldBlock {
        return true;
    }
    match error.raw_os_error() {
        Some(number) => SHORTAGES.contains(&number),
        None => false,
    }
}

impl ListenerDoor {
    /// A door over a listener that doesn't block. It waits at most so long for a socket, and fails once it is told to stop.
    ///
    /// It is refused where the system can't wait for the listener, or memory is wanted.
    pub fn on<R: Net>(
        rt: &R,
        alloc: Global,
        listener: TcpListener,
        wait: Duration,
        stop: Arc<AtomicBool, Global>,
    ) -> io::Result<ListenerDoor> {
        let mut listener = listener;
        let poll = Poll::new(rt)?;
        poll.registry()
            .register(&mut listener, Token(0), Interest::READABLE)?;
        let events = Events::with_capacity(alloc, 1)?;
        Ok(ListenerDoor {
            listener,
            poll,
            events,
            wait,
            stop,
            sockets: 0,
            faults: 0,
        })
    }

    fn failed(&mut self) -> Failed
        ensures later { self.old.faults ≤ self.new.faults }
        ensures rose { Rose self.old.faults self.new.faults }
        ensures sockets { self.new.sockets ≡ self.old.sockets }
    {
        self.faults = self.faults.saturating_add(1);
        Failed
    }
}

impl Door for ListenerDoor {
    ghost sockets = { λ d. d.sockets };

    ghost faults = { λ d. d.faults };

    fn accept(&mut self) -> Result<Entered, Failed> {
        if self.stop.load(Ordering::SeqCst) {
            return Err(self.failed());
        }
        let accepted = self.listener.accept();
        let error = match accepted {
            Ok((stream, _)) => {
                let _ = stream.set_nodelay(true);
                self.sockets = self.sockets.saturating_add(1);
                return Ok(Entered::Socket(stream));
            }
            Err(error) => error,
        };
        if came_to_nothing(&error) {
            return Ok(Entered::Nobody);
        }
        if is_to_wait(&error) && self.poll.poll(&mut self.events, Some(self.wait)).is_ok() {
            return Ok(Entered::Nobody);
        }
        Err(self.failed())
    }
}
