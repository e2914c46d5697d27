ghost use Rattle.std.specs.Prelude.{◌≡◌, IfOk};
ghost use Rattle.ws_handshake.specs.Heard.{IsHeardBy};
ghost use Rattle.ws_handshake.specs.Shakes.{rules_of, Follows};

use crate::answering::Answering;
use crate::hearing::{Heard, Hearing};
use crate::rulings::Ruling;
use cable_base::OutOfMemory;
use cable_link::{CountedStream, WsLink, socket_config};
use mio::net::TcpStream;
use std::alloc::Global;
use std::io::{ErrorKind, Write};
use std::sync::Arc;
use tungstenite::{NoMask, Role, WebSocket};
use ws_gate::{Admission, Denial, Rules};

/// Where a handshake is.
#[derive(Drop)]
enum Stage {
    Hears(Hearing),
    Answers(Answering),
}

/// A handshake that waits for bytes to come, or for room for its answer.
///
/// To go on takes it, and it comes back only where it waits. So behind a failure, as behind its end, there is none to go on with.
#[derive(Drop)]
pub struct Shake {
    alloc: Global,
    stream: TcpStream,
    stage: Stage,
}

/// How far a handshake is.
#[derive(Drop)]
pub enum Shaken {
    /// It goes on when the stream is ready again, by the same rules.
    Waits(Shake),
    /// The request was admitted and is answered. The socket is the link's, which has counted no fault.
    Done(WsLink<NoMask>, Admission),
    /// A rule denied the request, or memory was wanted for it: it was answered so, and the socket is closed.
    Denied(Denial),
    /// The client asked for no handshake, it went, or memory was wanted. The socket is closed, and nobody was let in. What came over it
    /// is known to nobody, so no clause says when this is answered.
    Failed,
}

/// How many reads a request may take at once.
const READ_LIMIT: usize = 1024;

/// How many writes an answer may take at once.
const WRITE_LIMIT: usize = 1024;

/// What came of writing an answer.
#[derive(Clone, Copy, PartialEq, Eq)]
enum Written {
    All,
    Blocked,
    Failed,
}

/// Writes as much of an answer as the stream takes.
fn write_answer(stream: &mut TcpStream, answering: &mut Answering) -> Written
    ensures { answering.new.rules ≡ answering.old.rules }
{
    for _ in 0..WRITE_LIMIT {
        let rest = answering.rest();
        if rest.is_empty() {
            return Written::All;
        }
        match stream.write(rest) {
            Ok(0) => return Written::Failed,
            Ok(count) => answering.take(count),
            Err(error) if error.kind() == ErrorKind::WouldBlock => return Written::Blocked,
            Err(_) => return Written::Failed,
        }
    }
    Written::Failed
}

/// The end of a handshake whose answer is written.
fn done(alloc: Global, stream: TcpStream, answering: Answering) -> Shaken
    ensures { Follows answering.rules.value result }
{
    match answering.into_ruling() {
        Ruling::LetIn(admission, _) => {
            let stream = CountedStream::on(stream);
            let config = Some(socket_config());
            let socket = WebSocket::from_raw_socket(alloc, stream, NoMask, Role::Server, config);
            Shaken::Done(WsLink::on(alloc, socket), admission)
        }
        Ruling::KeptOut(denial) => Shaken::Denied(denial),
    }
}

/// Goes on with an answer.
fn answer(alloc: Global, stream: TcpStream, answering: Answering) -> Shaken
    ensures { Follows answering.rules.value result }
{
    let mut stream = stream;
    let mut answering = answering;
    match write_answer(&mut stream, &mut answering) {
        Written::All => done(alloc, stream, answering),
        Written::Blocked => Shaken::Waits(Shake {
            alloc,
            stream,
            stage: Stage::Answers(answering),
        }),
        Written::Failed => Shaken::Failed,
    }
}

/// What of a request came, as far as it can be read without waiting.
fn hear_all(alloc: Global, stream: &mut TcpStream, hearing: &mut Hearing) -> Heard
    ensures heard { IsHeardBy hearing.old.rules.value result }
    ensures rules { hearing.new.rules ≡ hearing.old.rules }
{
    for _ in 0..READ_LIMIT {
        match hearing.go_on(alloc, stream) {
            Heard::More => {}
            heard => return heard,
        }
    }
    Heard::Failed
}

/// Goes on with a request.
fn hear(alloc: Global, stream: TcpStream, hearing: Hearing) -> Shaken
    ensures { Follows hearing.rules.value result }
{
    let mut stream = stream;
    let mut hearing = hearing;
    match hear_all(alloc, &mut stream, &mut hearing) {
        Heard::Whole(ruling) => answer(alloc, stream, Answering::new(hearing.into_rules(), ruling)),
        Heard::Nothing => Shaken::Waits(Shake {
            alloc,
            stream,
            stage: Stage::Hears(hearing),
        }),
        Heard::More | Heard::Failed => Shaken::Failed,
    }
}

impl Shake {
    /// Begins a handshake over a stream that doesn't block. Its request is admitted by these rules. It is refused where memory is
    /// wanted, and then the socket is closed.
    pub fn begin(
        alloc: Global,
        stream: TcpStream,
        rules: &Arc<Rules, Global>,
    ) -> Result<Shake, OutOfMemory>
        ensures { IfOk result (λ shake. rules_of shake ≡ rules.now.value) }
    {
        let hearing = Hearing::new(alloc, rules.clone()?);
        Ok(Shake {
            alloc,
            stream,
            stage: Stage::Hears(hearing),
        })
    }

    /// Its stream, to be registered where readiness is waited for.
    pub fn stream(&mut self) -> &mut TcpStream {
        &mut self.stream
    }

    /// Goes on with what came, as far as it can without waiting. Whom it lets in, and whom it denies, is by its rules.
    pub fn go_on(self) -> Shaken
        ensures { Follows (rules_of self) result }
    {
        let Shake {
            alloc,
            stream,
            stage,
        } = self;
        match stage {
            Stage::Hears(hearing) => hear(alloc, stream, hearing),
            Stage::Answers(answering) => answer(alloc, stream, answering),
        }
    }
}
