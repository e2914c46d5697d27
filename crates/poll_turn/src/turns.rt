ghost use Rattle.std.specs.Prelude.{◌≡◌};
ghost use Rattle.poll_turn.specs.Turns.{found_by, missed_by, AreMessages, LooksAtNone};

use cable_base::{NodeNo, Row, RowId};
use std::marker::Model;

/// A turn of a node's listener on its way to the table: it looks for the rows above `lower` whose names have one of the hashes. It
/// must be spent: read, missed or given up.
#[derive(Debug)]
pub struct Turn {
    node: NodeNo,
    number: u64,
    lower: RowId,
    hashes: Vec<i64>,
}

impl Model for Turn {
    ghost use Rattle.poll_turn.specs.Turns.{TurnState};

    ghost Value = { TurnState };

    ghost view = { λ a. record { node = a.node; number = a.number; lower = a.lower; hashes = a.hashes.items } };
}

impl Turn {
    /// The turn of this number.
    pub(crate) fn asked(node: NodeNo, number: u64, lower: RowId, hashes: Vec<i64>) -> Turn
        ensures { result ≡ record { node = node; number = number; lower = lower; hashes = hashes.items } }
    {
        Turn {
            node,
            number,
            lower,
            hashes,
        }
    }

    /// The node whose listener asks.
    pub fn node(&self) -> NodeNo
        ensures { result ≡ self.now.node }
    {
        self.node
    }

    /// The how manieth turn of its node it is.
    pub fn number(&self) -> u64
        ensures { result ≡ self.now.number }
    {
        self.number
    }

    /// It looks at rows above this id.
    pub fn lower(&self) -> RowId
        ensures { result ≡ self.now.lower }
    {
        self.lower
    }

    /// The hashes of the names that are held, in no order. A hash may stand twice.
    pub fn hashes(&self) -> &[i64]
        ensures { result.now ≡ self.now.hashes }
    {
        self.hashes.as_slice()
    }

    /// The turn found these rows: it looked at the ids up to `upto`, and the table's last id was `last` then. Their payloads are
    /// squeezed JSON. It takes no memory.
    pub fn found(self, upto: RowId, last: RowId, rows: Vec<Row>) -> Caught
        requires { AreMessages rows.items }
        ensures { result ≡ found_by self upto last rows.items }
    {
        let Turn {
            node,
            number,
            lower,
            hashes: _,
        } = self;
        Caught {
            node,
            number,
            lower,
            is_missed: false,
            upto,
            last,
            rows,
        }
    }

    /// The read failed: the turn looked at nothing. It takes no memory.
    pub fn missed(self) -> Caught
        ensures { result ≡ missed_by self }
    {
        let Turn {
            node,
            number,
            lower,
            hashes,
        } = self;
        Caught {
            node,
            number,
            lower,
            is_missed: true,
            upto: lower,
            last: lower,
            rows: Vec::new(*hashes.allocator()),
        }
    }

    /// Lets the turn go. Its node's cursor keeps it out for good.
    pub fn give_up(self) {
        let Turn {
            node: _,
            number: _,
            lower: _,
            hashes: _,
        } = self;
    }
}

/// A turn of a node's listener on its way back, with what it found. It must be spent: delivered or given up.
#[derive(Debug)]
pub struct Caught {
    node: NodeNo,
    number: u64,
    lower: RowId,
    is_missed: bool,
    upto: RowId,
    last: RowId,
    rows: Vec<Row>,
}

impl Model for Caught {
    ghost use Rattle.poll_turn.specs.Turns.{CaughtState, AreMessages, LooksAtNone};

    ghost Value = { CaughtState };

    ghost view = { λ a. record { node = a.node; number = a.number; lower = a.lower; is_missed = a.is_missed; upto = a.upto; last = a.last; rows = a.rows.items } };

    ghost invariant = { λ a. AreMessages a.rows.items × LooksAtNone a.is_missed a.lower a.upto a.last a.rows.items };
}

impl Caught {
    /// The node whose listener asked.
    pub fn node(&self) -> NodeNo
        ensures { result ≡ self.now.node }
    {
        self.node
    }

    /// The how manieth turn of its node it is.
    pub fn number(&self) -> u64
        ensures { result ≡ self.now.number }
    {
        self.number
    }

    /// It looked at rows above this id.
    pub fn lower(&self) -> RowId
        ensures { result ≡ self.now.lower }
    {
        self.lower
    }

    /// Whether the read failed. Then `upto` and `last` are `lower`, and there are no rows.
    pub fn is_missed(&self) -> bool
        ensures missed { result ≡ self.now.is_missed }
        ensures none { LooksAtNone result self.now.lower self.now.upto self.now.last self.now.rows }
    {
        self.is_missed
    }

    /// It looked at rows up to this id.
    pub fn upto(&self) -> RowId
        ensures { result ≡ self.now.upto }
    {
        self.upto
    }

    /// The table's last id at the read.
    pub fn last(&self) -> RowId
        ensures { result ≡ self.now.last }
    {
        self.last
    }

    /// The rows that it found. Their payloads are squeezed JSON.
    pub fn rows(&self) -> &[Row]
        ensures rows { result.now ≡ self.now.rows }
        ensures messages { AreMessages result.now }
    {
        self.rows.as_slice()
    }

    /// Lets it go. The cursor of its node keeps the turn out for good.
    pub fn give_up(self) {
        let Caught {
            node: _,
            number: _,
            lower: _,
            is_missed: _,
            upto: _,
            last: _,
            rows: _,
        } = self;
    }
}
