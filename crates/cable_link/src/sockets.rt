ghost use Rattle.std.specs.Prelude.{◌≡◌, ◌≤◌, [], Some, IfOk, OnOk, false, true};
ghost use Rattle.cable_base.specs.Causes.{Rose};
ghost use Rattle.cable_base.specs.Troubles.{HasTrouble};
ghost use Rattle.cable_base.specs.declared.faults.Trouble.TheVariants as trouble;
ghost use Rattle.cable_link.specs.Backlogs.{Leaves, WaitsSince, is_waiting, since};
ghost use Rattle.cable_link.specs.Failures.{failed_by};
ghost use Rattle.cable_link.specs.Sockets.{GivesNone, IsTaken, code_of};
ghost use Rattle.tungstenite.specs.CloseCode.{close_code_of};
ghost use Rattle.tungstenite.specs.Connection.{close_step};
ghost use Rattle.tungstenite.specs.Socket.{Flushed, Writes};

use crate::backlogs::Backlog;
use crate::counted::CountedStream;
use crate::links::{Came, Link};
use crate::outcomes::{Outcome, outcome_of};
use cable_base::{Millis, Text, Trouble};
use mio::net::TcpStream;
use std::alloc::Global;
use std::io::{Read, Write};
use tungstenite::{CloseCode, CloseFrame, Error, MaskKeys, Message, Utf8Bytes, WebSocket};

/// Why a server closes a socket.
#[derive(Clone, Copy, Debug, PartialEq, Eq)]
pub enum Goodbye {
    /// The connection is over. The code is 1000.
    Ended,
    /// A message was longer than the link takes. The code is 1009.
    TooLong,
    /// Memory was wanted and not to be had. The code is 1011.
    NoMemory,
}

impl Goodbye {
    fn code(&self) -> CloseCode
        ensures { result ≡ close_code_of (code_of self.now) }
    {
        match self {
            Goodbye::Ended => CloseCode::Normal,
            Goodbye::TooLong => CloseCode::Size,
            Goodbye::NoMemory => CloseCode::Error,
        }
    }
}

/// A link over a socket whose stream doesn't block.
///
/// No call waits: `next` is quiet where nothing is there, and what the peer doesn't take at once stands in the socket's output until `flush`
/// hands it on. `K` gives a client's masking keys; a server has `NoMask`. A binary message is passed over, and so are a ping, which is
/// answered, and a pong.
///
/// A fault is told once by `next`: behind it the link is closed, whatever the socket would say. Behind it `say` is refused too, and
/// each refusal counts: the client is told nothing that came after something that it missed. `flush` and `close` go to the socket
/// as before, so that the client can still be told why, where its stream takes it.
#[derive(Drop)]
pub struct WsLink<K> {
    socket: WebSocket<CountedStream, K>,
    alloc: Global,
    faults: u64,
    has_failed: bool,
    // Nothing was there to be read when the link was last asked.
    dry: bool,
    // The message that ended the link was too long.
    too_long: bool,
    backlog: Backlog,
}

impl<K: MaskKeys + Drop> WsLink<K> {
    /// A link over a socket whose handshake is done and whose stream doesn't block. It has counted no fault yet.
    pub fn on(alloc: Global, socket: WebSocket<CountedStream, K>) -> WsLink<K>
        ensures faults { ⟦<WsLink<K> as Link>⟧.faults result ≡ 0 }
        ensures sound { result.has_failed ≡ false }
        ensures waits { is_waiting result.backlog ≡ false }
    {
        WsLink {
            socket,
            alloc,
            faults: 0,
            has_failed: false,
            dry: false,
            too_long: false,
            backlog: Backlog::Nothing,
        }
    }

    /// Its stream, to be registered where readiness is waited for.
    pub fn stream(&mut self) -> &mut TcpStream {
        self.socket.get_mut().stream()
    }

    /// Whether nothing was there to be read when `next` was last called: it need not be called again before the stream is readable. A link
    /// that is behind may be dry while a ping waits to be answered; then it is to be called again once it isn't behind.
    pub fn is_dry(&self) -> bool {
        self.dry
    }

    /// Whether the link failed since a message was longer than it takes.
    pub fn is_too_long(&self) -> bool {
        self.too_long
    }

    /// Whether a fault was told. Nothing comes from the link any more then.
    pub fn has_failed(&self) -> bool
        ensures { result ≡ self.now.has_failed }
    {
        self.has_failed
    }

    /// Whether something that was said still waits in the link.
    pub fn is_behind(&self) -> bool
        ensures { result ≡ is_waiting self.now.backlog }
    {
        self.backlog.is_waiting()
    }

    /// The moment of the first `flush` that left something, since the peer had last taken some of it. `None` where nothing waits, or where
    /// there was no `flush` since.
    pub fn behind_since(&self) -> Option<Millis>
        ensures { result ≡ since self.now.backlog self.now.socket.stream.taken }
    {
        self.backlog.since(self.taken())
    }

    /// How many bytes the peer's side has taken.
    fn taken(&self) -> u64
        ensures { result ≡ self.now.socket.stream.taken }
    {
        self.socket.get_ref().taken()
    }

    /// Offers what waits to the peer, at this moment of the caller's clock, behind a fault too. What it doesn't take goes on waiting. It
    /// is refused where the stream fails, and then what waits is kept.
    pub fn flush(&mut self, at: Millis) -> Result<(), Trouble>
        ensures cause { HasTrouble (⟦<WsLink<K> as Link>⟧.faults self.old) (⟦<WsLink<K> as Link>⟧.faults self.new) result }
        ensures calm { OnOk result (⟦<WsLink<K> as Link>⟧.faults self.new ≡ ⟦<WsLink<K> as Link>⟧.faults self.old) }
        ensures failed { self.new.has_failed ≡ failed_by self.old.has_failed result }
        ensures hands_on { Flushed ⟦<CountedStream as Write>⟧.contents self.old.socket self.new.socket }
        ensures waits { WaitsSince at (since self.old.backlog self.old.socket.stream.taken)
            self.old.socket.stream.taken self.new.socket.stream.taken self.new.backlog }
    {
        let before = self.taken();
        let told = self.behind_since();
        let flushed = self.socket.flush();
        let settled = self.settle(flushed);
        let now = self.taken();
        self.backlog = self.backlog.flushed(at, told, before, now);
        settled
    }

    /// Says why the socket is closed, once, behind a fault too; a further call says nothing more. Behind that nothing can be said; what
    /// is still to come can be read, until the peer has closed too, but for a link that has failed. It is refused where the stream fails
    /// or memory is wanted.
    pub fn close(&mut self, why: Goodbye) -> Result<(), Trouble>
        ensures cause { HasTrouble (⟦<WsLink<K> as Link>⟧.faults self.old) (⟦<WsLink<K> as Link>⟧.faults self.new) result }
        ensures calm { OnOk result (⟦<WsLink<K> as Link>⟧.faults self.new ≡ ⟦<WsLink<K> as Link>⟧.faults self.old) }
        ensures failed { self.new.has_failed ≡ failed_by self.old.has_failed result }
        ensures tells { OnOk result (Writes ⟦<CountedStream as Write>⟧.contents self.old.socket self.new.socket
            (close_step self.old.socket.conn (Some (close_code_of (code_of why), [])))) }
    {
        let code = why.code();
        let reason = Utf8Bytes::new();
        let closed = self.socket.close(Some(CloseFrame { code, reason }));
        self.settle(closed)
    }

    fn failed(&mut self) -> Trouble
        ensures result { result ≡ trouble.Failed }
        ensures later { self.old.faults ≤ self.new.faults }
        ensures rose { Rose self.old.faults self.new.faults }
        ensures socket { self.new.socket ≡ self.old.socket }
        ensures failed { self.new.has_failed ≡ true }
        ensures backlog { self.new.backlog ≡ self.old.backlog }
    {
        self.has_failed = true;
        self.faults = self.faults.saturating_add(1);
        Trouble::Failed
    }

    /// What is left in the output behind a write. A stream that would block has kept all that was handed to it.
    fn settle(&mut self, written: Result<(), Error>) -> Result<(), Trouble>
        ensures socket { self.new.socket ≡ self.old.socket }
        ensures ok { OnOk result (IsTaken written) }
        ensures cause { HasTrouble self.old.faults self.new.faults result }
        ensures calm { OnOk result (self.new.faults ≡ self.old.faults) }
        ensures failed { self.new.has_failed ≡ failed_by self.old.has_failed result }
        ensures leaves { Leaves self.old.backlog written result self.new.backlog }
    {
        let Err(error) = written else {
            self.backlog = Backlog::Nothing;
            return Ok(());
        };
        match outcome_of(&error) {
            Outcome::Blocked => {
                self.backlog = self.backlog.left();
                Ok(())
            }
            Outcome::NoMemory => Err(Trouble::OutOfMemory),
            Outcome::Closed | Outcome::TooLong | Outcome::Broken => Err(self.failed()),
        }
    }

    /// Hands on a reply that the socket has made to a ping.
    fn reply(&mut self) -> Result<(), Trouble>
        ensures cause { HasTrouble self.old.faults self.new.faults result }
        ensures calm { OnOk result (self.new.faults ≡ self.old.faults) }
        ensures failed { self.new.has_failed ≡ failed_by self.old.has_failed result }
    {
        let flushed = self.socket.flush();
        self.settle(flushed)
    }

    /// Hands on the reply to a close. The peer may be gone, which is no fault then.
    fn reply_to_close(&mut self)
        ensures faults { self.new.faults ≡ self.old.faults }
        ensures failed { self.new.has_failed ≡ self.old.has_failed }
    {
        let flushed = self.socket.flush();
        if let Err(error) = flushed
            && outcome_of(&error) == Outcome::Blocked
        {
            self.backlog = self.backlog.left();
        }
    }

    /// What a read that gave no message is.
    fn read_failed(&mut self, error: &Error) -> Result<Came, Trouble>
        ensures cause { HasTrouble self.old.faults self.new.faults result }
        ensures calm { OnOk result (self.new.faults ≡ self.old.faults) }
        ensures failed { self.new.has_failed ≡ failed_by self.old.has_failed result }
        ensures none { IfOk result GivesNone }
    {
        match outcome_of(error) {
            Outcome::Blocked => {
                self.dry = true;
                Ok(Came::Quiet)
            }
            Outcome::Closed => Ok(Came::Closed),
            Outcome::NoMemory => Err(Trouble::OutOfMemory),
            Outcome::TooLong => {
                self.too_long = true;
                Err(self.failed())
            }
            Outcome::Broken => Err(self.failed()),
        }
    }
}

impl<K: MaskKeys + Drop> Link for WsLink<K> {
    ghost use Rattle.std.specs.Prelude.{None};
    ghost use Rattle.cable_link.specs.Failures.{IsClosedBehind, IsRefusedBehind, failed_by};
    ghost use Rattle.cable_link.specs.Sockets.{GivesRead, HandsOn};

    ghost coming = { λ _. None };

    ghost said = { λ _. None };

    ghost faults = { λ l. l.faults };

    ghost gives = { λ old result new.
        GivesRead ⟦<CountedStream as Read>⟧.remaining old.socket result new.socket
        × IsClosedBehind old.has_failed old.socket result new.socket
        × (new.has_failed ≡ failed_by old.has_failed result) };

    ghost says = { λ old text result new.
        HandsOn ⟦<CountedStream as Write>⟧.contents old.socket text result new.socket
        × IsRefusedBehind old.has_failed old.socket result new.socket
        × (new.has_failed ≡ failed_by old.has_failed result) };

    fn next(&mut self) -> Result<Came, Trouble> {
        if self.has_failed {
            return Ok(Came::Closed);
        }
        self.dry = false;
        let read = self.socket.read();
        let message = match read {
            Ok(message) => message,
            Err(error) => return self.read_failed(&error),
        };
        match &message {
            Message::Text(text) => Ok(Came::Text(Text::new(self.alloc, text.as_str())?)),
            Message::Binary(_) => Ok(Came::Binary),
            Message::Close(_) => {
                self.reply_to_close();
                Ok(Came::Closed)
            }
            Message::Ping(_) => {
                self.reply()?;
                Ok(Came::Quiet)
            }
            Message::Pong(_) => Ok(Came::Quiet),
        }
    }

    fn say(&mut self, text: &str) -> Result<(), Trouble> {
        if self.has_failed {
            return Err(self.failed());
        }
        let Ok(message) = Message::text(self.alloc, text) else {
            return Err(Trouble::OutOfMemory);
        };
        let sent = self.socket.send(message);
        self.settle(sent)
    }
}
