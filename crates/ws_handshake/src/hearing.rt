ghost use Rattle.std.specs.Prelude.{◌≡◌};
ghost use Rattle.ws_handshake.specs.Heard.{IsHeardBy};

use crate::replies::{Reply, reply_to_head};
use crate::rulings::Ruling;
use mio::net::TcpStream;
use std::alloc::Global;
use std::io::{ErrorKind, Read};
use std::sync::Arc;
use ws_gate::Rules;

/// How many bytes one read of a request asks for.
const READ_SIZE: usize = 1024;

/// The most bytes of a request.
const HEAD_LIMIT: usize = 65_536;

/// How many reads a request may take whatever they give, and how many bytes all must give on average once there are more.
const FREE_READS: usize = 64;

const READ_AVERAGE: usize = 128;

/// A request that is being read.
#[derive(Drop)]
pub(crate) struct Hearing {
    pub(crate) rules: Arc<Rules, Global>,
    head: Vec<u8>,
    reads: usize,
}

/// What came of a read.
#[derive(Drop)]
pub(crate) enum Heard {
    /// Nothing was there.
    Nothing,
    /// The request isn't whole yet.
    More,
    /// It is, and is ruled on.
    Whole(Ruling),
    /// The client asks for no handshake, it went, it gave too little at once, or memory was wanted.
    Failed,
}

impl Hearing {
    pub(crate) fn new(alloc: Global, rules: Arc<Rules, Global>) -> Hearing
        ensures { result.rules ≡ rules }
    {
        Hearing {
            rules,
            head: Vec::new(alloc),
            reads: 0,
        }
    }

    pub(crate) fn into_rules(self) -> Arc<Rules, Global>
        ensures { result ≡ self.rules }
    {
        self.rules
    }

    /// Whether it came in too many pieces, or was too long.
    fn is_too_much(&self) -> bool {
        self.head.len() > HEAD_LIMIT
            || (self.reads > FREE_READS && self.head.len() / READ_AVERAGE < self.reads)
    }

    /// What the rules make of what came so far.
    fn ruling(&self, alloc: Global) -> Heard
        ensures { IsHeardBy self.now.rules.value result }
    {
        match reply_to_head(alloc, self.head.as_slice(), &self.rules) {
            Reply::Unfinished => Heard::More,
            Reply::Admitted(admission, answer) => Heard::Whole(Ruling::LetIn(admission, answer)),
            Reply::Denied(denial) => Heard::Whole(Ruling::KeptOut(denial)),
            Reply::Refused(_) => Heard::Failed,
        }
    }

    /// Reads what is there.
    pub(crate) fn go_on(&mut self, alloc: Global, stream: &mut TcpStream) -> Heard
        ensures heard { IsHeardBy self.old.rules.value result }
        ensures rules { self.new.rules ≡ self.old.rules }
    {
        let mut piece = [0u8; READ_SIZE];
        match stream.read(&mut piece) {
            Ok(0) => Heard::Failed,
            Ok(count) => {
                self.reads = self.reads.saturating_add(1);
                if self.head.extend_from_slice(&piece[..count]).is_err() || self.is_too_much() {
                    return Heard::Failed;
                }
                self.ruling(alloc)
            }
            Err(error) if error.kind() == ErrorKind::WouldBlock => Heard::Nothing,
            Err(_) => Heard::Failed,
        }
    }
}
