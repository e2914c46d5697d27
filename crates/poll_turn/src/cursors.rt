ghost use Rattle.std.specs.Prelude.{◌≡◌, ◌+◌, ◌-◌, ◌<◌, ◌^◌, true, false, MatchOption};
ghost use Rattle.poll_turn.specs.Turns.{lower_after, IsTurnOut};

use crate::turns::{Caught, Turn};
use cable_base::{NodeNo, RowId};
use std::marker::Model;

/// Where a node's listener stands: up to which id it has looked, how many turns it has asked, and whether the last one is out.
#[derive(Debug, Drop)]
pub struct Cursor {
    lower: RowId,
    turns: u64,
    is_out: bool,
}

impl Model for Cursor {
    ghost use Rattle.poll_turn.specs.Turns.{CursorState};

    ghost Value = { CursorState };

    ghost view = { λ a. record { lower = a.lower; turns = a.turns; is_out = a.is_out } };
}

impl Cursor {
    /// A cursor that has looked at all rows up to the table's last one, and has asked no turn.
    pub fn at(last: RowId) -> Cursor
        ensures { result ≡ record { lower = last; turns = 0; is_out = false } }
    {
        Cursor {
            lower: last,
            turns: 0,
            is_out: false,
        }
    }

    /// How many turns were asked.
    pub fn turns(&self) -> u64
        ensures { result ≡ self.now.turns }
    {
        self.turns
    }

    /// The id up to which the node has looked.
    pub fn lower(&self) -> RowId
        ensures { result ≡ self.now.lower }
    {
        self.lower
    }

    /// Whether a turn is out.
    pub fn is_out(&self) -> bool
        ensures { result ≡ self.now.is_out }
    {
        self.is_out
    }

    /// Begins the next turn, with the hashes of the names that are held. `None` comes exactly where a turn is out, and then nothing
    /// changes. It takes no memory.
    pub fn ask(&mut self, node: NodeNo, hashes: Vec<i64>) -> Option<Turn>
        requires { self.old.turns < 2 ^ 64 - 1 }
        ensures { MatchOption result ((self.old.is_out ≡ true) × (self.new ≡ self.old)) (λ turn. (self.old.is_out ≡ false)
            × (turn ≡ record { node = node; number = self.old.turns + 1; lower = self.old.lower; hashes = hashes.items })
            × (self.new ≡ record { lower = self.old.lower; turns = self.old.turns + 1; is_out = true })) }
    {
        if self.is_out {
            return None;
        }
        self.is_out = true;
        self.turns += 1;
        Some(Turn::asked(node, self.turns, self.lower, hashes))
    }

    /// Ends the turn that is out, and answers up to which id the node has looked now: where the turn ended, or as before where it was
    /// missed. It takes no memory.
    pub fn close(&mut self, caught: Caught) -> RowId
        requires { IsTurnOut self.old caught }
        ensures answer { result ≡ lower_after caught }
        ensures closed { self.new ≡ record { lower = lower_after caught; turns = self.old.turns; is_out = false } }
    {
        if !caught.is_missed() {
            self.lower = caught.upto();
        }
        self.is_out = false;
        caught.give_up();
        self.lower
    }
}
