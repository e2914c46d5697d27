ghost use Rattle.std.specs.Prelude.{◌≡◌, ◌∷◌, cond, false, None, IfOk, OnOk, OnErr};
ghost use Rattle.cable_json.specs.Commands.{command_of};
ghost use Rattle.cable_model.specs.declared.pieces.Piece.TheVariants as piece;
ghost use Rattle.cable_model.specs.Possible.{can_drop};
ghost use Rattle.cable_model.specs.Steps.{Step};
ghost use Rattle.node_core.specs.Nodes.{GoesOn, past, ReadsSame};
ghost use Rattle.node_seats.specs.Numbers.{seat_at};
ghost use Rattle.node_core.specs.Arriving.{RefusesText, fault_at, receiving_at, text_fault};

use crate::nodes::Node;
use crate::serving::{refresh, refresh_all};
use cable_base::{ConnNo, MOST_TEXT, MOST_WAITING, OutOfMemory, Text};
use cable_json::{CommandFault, read_command};
use cable_model::{Beside, Entry, Piece};
use node_seats::Seats;
use std::alloc::Global;

/// Why a client's text isn't taken. The first cause that holds is answered.
#[derive(Clone, Copy, Debug, PartialEq, Eq)]
pub enum ArriveFault {
    /// No connection of this number is live.
    Unknown,
    /// The connection is closing.
    Shut,
    /// The text has over `MOST_TEXT` bytes.
    TooLong,
    /// `MOST_WAITING` commands of the connection wait.
    Busy,
    OutOfMemory,
}

impl From<OutOfMemory> for ArriveFault {
    ghost use Rattle.std.specs.Prelude.{◌≡◌};
    ghost use Rattle.node_core.specs.declared.arriving.ArriveFault.TheVariants as fault;

    ghost from_gives = { λ _ e. e ≡ fault.OutOfMemory };

    fn from(_e: OutOfMemory) -> ArriveFault {
        ArriveFault::OutOfMemory
    }
}

/// A client's text as a piece.
fn command_piece(alloc: Global, text: &str) -> Result<Piece, OutOfMemory>
    ensures { IfOk result (λ p. p ≡ piece.Cmd (command_of text.now)) }
{
    match read_command(alloc, text) {
        Err(CommandFault::OutOfMemory) => Err(OutOfMemory),
        read => Ok(Piece::Cmd { read }),
    }
}

/// Why the text isn't taken on the connection of this number.
fn text_fault(seats: &Seats, conn: ConnNo, text: &str) -> Option<ArriveFault>
    ensures { result ≡ fault_at (seat_at conn.0 seats.now.entries) text.now }
{
    let Some(seat) = seats.get(conn) else {
        return Some(ArriveFault::Unknown);
    };
    if seat.is_closing() {
        return Some(ArriveFault::Shut);
    }
    if text.len() > MOST_TEXT {
        return Some(ArriveFault::TooLong);
    }
    if seat.waiting_commands() >= MOST_WAITING {
        return Some(ArriveFault::Busy);
    }
    None
}

/// Whether a connection of this number is live and not closing.
fn is_receiving(seats: &Seats, conn: ConnNo) -> bool
    ensures { result ≡ receiving_at (seat_at conn.0 seats.now.entries) }
{
    match seats.get(conn) {
        Some(seat) => seat.is_receiving(),
        None => false,
    }
}

impl Node {
    /// Puts a client's text on its connection, to be worked as a command. A text that is refused is in no log.
    pub fn arrive(&mut self, conn: ConnNo, text: &str) -> Result<(), ArriveFault>
        ensures no { self.new.no ≡ self.old.no }
        ensures fault { RefusesText (text_fault conn.0 text.now (past self.old)) result }
        ensures ok { OnOk result (past self.new ≡ Step.In conn.0 text.now ∷ past self.old) }
        ensures goes { GoesOn self.old self.new }
        ensures err { OnErr result (ReadsSame self.old self.new) }
    {
        if let Some(fault) = text_fault(&self.seats, conn, text) {
            return Err(fault);
        }
        self.put_text(conn, text)?;
        Ok(())
    }

    /// Puts a text that can be put.
    fn put_text(&mut self, conn: ConnNo, text: &str) -> Result<(), OutOfMemory>
        requires { text_fault conn.0 text.now (past self.old) ≡ None }
        ensures no { self.new.no ≡ self.old.no }
        ensures ok { OnOk result (past self.new ≡ Step.In conn.0 text.now ∷ past self.old) }
        ensures goes { GoesOn self.old self.new }
        ensures err { OnErr result (ReadsSame self.old self.new) }
    {
        let piece = command_piece(self.alloc, text)?;
        let text = Text::new(self.alloc, text)?;
        self.ready.reserve(1)?;
        self.journal.reserve()?;
        self.seats.put(conn, piece)?;
        refresh(&mut self.ready, &self.seats, conn);
        self.journal
            .enter(Entry::In { conn, text }, Beside::Nothing);
        Ok(())
    }

    /// The client has gone: its connection is to be closed. It is `false` exactly where no connection of this number is live or it is
    /// closing, and then nothing changes.
    pub fn gone(&mut self, conn: ConnNo) -> Result<bool, OutOfMemory>
        ensures no { self.new.no ≡ self.old.no }
        ensures answer { IfOk result (λ done. done ≡ can_drop conn.0 (past self.old)) }
        ensures ok { IfOk result (λ done. past self.new ≡ cond done (Step.Drop conn.0 ∷ past self.old) (past self.old)) }
        ensures same { IfOk result (λ done. done ≡ false → ReadsSame self.old self.new) }
        ensures goes { GoesOn self.old self.new }
        ensures err { OnErr result (ReadsSame self.old self.new) }
    {
        if !is_receiving(&self.seats, conn) {
            return Ok(false);
        }
        self.ready.reserve(1)?;
        self.journal.reserve()?;
        self.seats.put(conn, Piece::Gone)?;
        refresh(&mut self.ready, &self.seats, conn);
        self.journal.enter(Entry::Drop { conn }, Beside::Nothing);
        Ok(true)
    }

    /// The node restarts: each connection that is live and not closing is to be closed.
    pub fn stop(&mut self) -> Result<(), OutOfMemory>
        ensures no { self.new.no ≡ self.old.no }
        ensures ok { OnOk result (past self.new ≡ Step.Stop ∷ past self.old) }
        ensures goes { GoesOn self.old self.new }
        ensures err { OnErr result (ReadsSame self.old self.new) }
    {
        let conns = self.seats.receiving(self.alloc)?;
        self.ready.reserve(conns.len() as u64)?;
        self.journal.reserve()?;
        self.seats.stop();
        refresh_all(&mut self.ready, &self.seats, &conns);
        self.journal.enter(Entry::Stop, Beside::Nothing);
        Ok(())
    }
}
