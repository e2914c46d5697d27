ghost use Rattle.std.specs.Prelude.{◌≡◌, ◌<◌, ◌≤◌, [], not, if◌then◌else◌, IfErr, OnOk, OnErr, IsOk, MatchOption, length, map, filter, option_copied};
ghost use Rattle.cable_model.specs.Possible.{is_command};
ghost use Rattle.run_queue.specs.Inboxes.{Keeps, Pushes, Takes, Filters, Drops, first_piece, is_row_of, is_piece_of};

use cable_base::{OutOfMemory, SubNo, WantNo};
use cable_model::Piece;
use std::alloc::Global;
use std::collections::VecDeque;
use std::marker::Model;

/// A piece that was taken, with its place: the how manieth it was that was put on the connection.
#[derive(Debug, PartialEq, Eq, Drop)]
pub struct Taken {
    pub place: u64,
    pub piece: Piece,
}

/// A piece that was not put, since memory was wanted.
#[derive(Debug, PartialEq, Eq, Drop)]
pub struct Unpushed {
    pub piece: Piece,
}

/// The pieces that wait on a connection, first in, first out. Each has its place, and a place is given once, whether its piece
/// is taken or struck.
#[derive(Debug, Drop)]
pub struct Inbox {
    pieces: VecDeque<Taken>,
    commands: u64,
    last: u64,
    taken: u64,
}

impl Model for Inbox {
    ghost use Rattle.std.specs.Prelude.{map};
    ghost use Rattle.run_queue.specs.Inboxes.{InboxQueue, spare_of};
    ghost use Rattle.run_queue.specs.Inside.{placed, IsInbox};

    ghost Value = { InboxQueue };

    ghost view = { λ a. record { waiting = map placed a.pieces.items; last = a.last; taken = a.taken; spare = spare_of a.pieces.len a.pieces.cap a.last } };

    ghost invariant = { λ a. IsInbox a.pieces.items a.commands a.last a.taken };
}

/// How many commands a piece is.
fn commands_in(piece: &Piece) -> u64
    ensures { result ≡ (if is_command piece.now then 1 else 0) }
{
    match piece {
        Piece::Cmd { .. } => 1,
        _ => 0,
    }
}

/// Whether a piece is a row for this want.
fn is_of_want(piece: &Piece, number: WantNo) -> bool
    ensures { result ≡ is_row_of number piece.now }
{
    match piece {
        Piece::Row { want, .. } => *want == number,
        _ => false,
    }
}

/// Whether a piece is a row or the confirmation of this subscription.
fn is_of_sub(piece: &Piece, number: SubNo) -> bool
    ensures { result ≡ is_piece_of number piece.now }
{
    match piece {
        Piece::Row { sub, .. } | Piece::Confirm { sub } => *sub == number,
        _ => false,
    }
}

impl Inbox {
    /// An inbox without pieces, whose first one gets the place 1. It takes no memory.
    pub fn empty(alloc: Global) -> Inbox
        ensures waiting { result.waiting ≡ [] }
        ensures last { result.last ≡ 0 }
        ensures taken { result.taken ≡ 0 }
    {
        Inbox {
            pieces: VecDeque::new(alloc),
            commands: 0,
            last: 0,
            taken: 0,
        }
    }

    /// Makes room for so many more pieces, which can then be put without memory. It is refused where memory is wanted, or where
    /// there are not so many places left.
    pub fn reserve(&mut self, more: u64) -> Result<(), OutOfMemory>
        ensures same { Keeps self.old self.new }
        ensures ok { OnOk result (more ≤ self.new.spare) }
        ensures enough { more ≤ self.old.spare → IsOk result }
    {
        if u64::MAX - self.last < more {
            return Err(OutOfMemory);
        }
        self.pieces.reserve(more as usize)?;
        Ok(())
    }

    /// Puts a piece behind the others, at the place above that of the one put before it. It is refused where memory is wanted,
    /// or where no place is left.
    pub fn push(&mut self, piece: Piece) -> Result<(), Unpushed>
        ensures ok { OnOk result (Pushes piece self.old self.new) }
        ensures err { IfErr result (λ e. e.piece ≡ piece) }
        ensures same { OnErr result (Keeps self.old self.new) }
        ensures room { 0 < self.old.spare → IsOk result }
    {
        if self.last == u64::MAX || self.pieces.reserve(1).is_err() {
            return Err(Unpushed { piece });
        }
        self.commands += commands_in(&piece);
        self.last += 1;
        self.pieces.push_back_reserved(Taken {
            place: self.last,
            piece,
        });
        Ok(())
    }

    /// Takes the first piece. It takes no memory.
    pub fn take(&mut self) -> Option<Taken>
        ensures { MatchOption result ((self.old.waiting ≡ []) × (self.new ≡ self.old)) (λ t. Takes t.place t.piece self.old self.new) }
    {
        let taken = self.pieces.pop_front()?;
        self.commands -= commands_in(&taken.piece);
        self.taken = taken.place;
        Some(taken)
    }

    /// The piece that `take` would give.
    pub fn first(&self) -> Option<&Piece>
        ensures { option_copied result ≡ first_piece self.now.waiting }
    {
        match self.pieces.front() {
            Some(taken) => Some(&taken.piece),
            None => None,
        }
    }

    /// Strikes the rows that wait for this want. The others keep their order and their places. It takes no memory.
    pub fn strike_want(&mut self, want: WantNo)
        ensures { Filters (λ p. not (is_row_of want p)) self.old self.new }
    {
        self.pieces.retain(|taken| !is_of_want(&taken.piece, want));
    }

    /// Strikes the rows and the confirmation that wait for this subscription. The others keep their order and their places. It
    /// takes no memory.
    pub fn strike_sub(&mut self, sub: SubNo)
        ensures { Filters (λ p. not (is_piece_of sub p)) self.old self.new }
    {
        self.pieces.retain(|taken| !is_of_sub(&taken.piece, sub));
    }

    /// Drops all pieces that wait. The next piece gets the place above that of the last one taken, or 1 where none was. It takes
    /// no memory.
    pub fn drop_waiting(&mut self)
        ensures { Drops self.old self.new }
    {
        self.pieces.clear();
        self.commands = 0;
        self.last = self.taken;
    }

    /// How many of the pieces that wait are commands.
    pub fn waiting_commands(&self) -> u64
        ensures { result ≡ length (filter is_command (map (λ p. p.piece) self.now.waiting)) }
    {
        self.commands
    }
}
