ghost use Rattle.std.specs.Prelude.{◌≡◌, ◌∷◌, [], length};
ghost use Rattle.cable_model.specs.Journal.{cut, past_of, step_of};
ghost use Rattle.node_log.specs.Logs.{cut_from, entered, nothing};

use cable_base::ConnNo;
use cable_model::{Beside, Entry};
use std::fmt;
use std::marker::Model;
use std::snapshot::Snapshot;

/// A history as it came to be. It is made where it is seen, and gone then.
#[derive(Drop)]
#[cycle(past)]
struct Past {
    made: Made,
}

/// What a history came by last.
#[derive(Drop)]
#[cycle(past)]
enum Made {
    Nothing,
    Entered {
        before: Snapshot<Snapshot<Past>>,
        entry: Snapshot<Entry>,
        beside: Snapshot<Beside>,
    },
    Cut {
        before: Snapshot<Snapshot<Past>>,
        conn: ConnNo,
    },
}

impl Model for Past {
    ghost use Rattle.node_log.specs.Logs.{Said};

    ghost Value = { Said };

    ghost use Rattle.node_log.specs.Pasts.{said_of};

    ghost view = { λ p. said_of p.made };

    ghost size = { λ s. s.acts };
}

/// The entries of a log, with what is kept beside each. Clauses alone read them: a history has no bytes, and no call of it takes memory.
#[derive(Drop)]
pub struct History {
    past: Snapshot<Past>,
}

impl Model for History {
    ghost use Rattle.std.specs.Prelude.{◌≡◌, length};
    ghost use Rattle.cable_model.specs.Journal.{Kept};

    ghost Value = { Kept };

    ghost view = { λ h. h.past.value.kept };

    ghost invariant = { λ h. length h.past.value.kept.log ≡ length h.past.value.kept.beside };
}

impl History {
    /// The history without entries.
    pub fn empty() -> History
        ensures { result ≡ nothing }
    {
        let past = Past {
            made: Made::Nothing,
        };
        History {
            past: Snapshot::of(&past),
        }
    }

    /// Enters an entry, with what is kept beside it.
    pub fn enter(&mut self, entry: &Entry, beside: &Beside)
        ensures kept { self.new ≡ entered entry.now beside.now self.old }
        ensures entered { past_of self.new ≡ step_of entry.now beside.now ∷ past_of self.old }
    {
        let past = Past {
            made: Made::Entered {
                before: Snapshot::of(&self.past),
                entry: Snapshot::of(entry),
                beside: Snapshot::of(beside),
            },
        };
        self.past = Snapshot::of(&past);
    }

    /// Takes the entries of this connection out.
    pub fn cut(&mut self, conn: ConnNo)
        ensures kept { self.new ≡ cut_from conn.0 self.old }
        ensures cut { past_of self.new ≡ cut conn.0 (past_of self.old) }
    {
        let past = Past {
            made: Made::Cut {
                before: Snapshot::of(&self.past),
                conn,
            },
        };
        self.past = Snapshot::of(&past);
    }
}

impl fmt::Debug for History {
    fn fmt<W: fmt::Write>(&self, f: &mut fmt::Formatter<W>) -> Result<(), fmt::Error> {
        f.write_str("History")
    }
}
