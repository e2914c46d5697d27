ghost use Rattle.std.specs.Prelude.{◌≡◌, ◌==◌, ℕ, true, false, option_map};
ghost use Rattle.cable_model.specs.Journal.{cut};
ghost use Rattle.node_log.specs.Logs.{cut_from};
ghost use Rattle.node_core.specs.Journals.{told};
ghost use Rattle.node_core.specs.Forgetting.{DropsWants, is_drained, may_forget};
ghost use Rattle.node_core.specs.Nodes.{TakesNone, is_forgotten};

use crate::nodes::Node;
use cable_base::ConnNo;

impl Node {
    /// Whether all that was queued on the connection was taken out.
    fn is_drained(&self, conn: ConnNo) -> bool
        ensures { result ≡ is_drained conn.0 self.now }
    {
        self.seats.is_drained(conn)
    }

    /// Whether the connection can be forgotten: it is over, it wasn't forgotten, and all that was queued on it was taken out. It takes no
    /// memory.
    pub fn may_forget(&self, conn: ConnNo) -> bool
        ensures { result ≡ may_forget conn.0 self.now }
    {
        self.is_over(conn) && (!self.seats.is_forgotten(conn) && self.is_drained(conn))
    }

    /// Forgets a connection that is over and of which all was taken out: the memory of its queue is given back, and only how many were
    /// taken out stays. Its wants that turns are to take, or that the turn out takes, are dropped with their confirmations, so that it
    /// leaves none behind even where each turn is missed. Its entries are taken out of the log that is stored, which tells its journal
    /// without them then. Its number stays used: the node's journal is as before, so `open_conn` goes on answering `Used` and `is_over`
    /// true. It takes no memory, and is no entry.
    pub fn forget(&mut self, conn: ConnNo)
        requires { may_forget conn.0 self.old ≡ true }
        ensures no { self.new.no ≡ self.old.no }
        ensures kept { self.new.kept ≡ self.old.kept }
        ensures stored { self.new.stored ≡ option_map (cut_from conn.0) self.old.stored }
        ensures cut { told self.new.stored ≡ cut conn.0 (told self.old.stored) }
        ensures taken { TakesNone self.old self.new }
        ensures forgotten { is_forgotten conn.0 self.new ≡ true }
        ensures others { (c : ℕ) → (c == conn.0) ≡ false → is_forgotten c self.new ≡ is_forgotten c self.old }
        ensures ready { self.new.ready ≡ self.old.ready }
        ensures wants { DropsWants conn.0 self.old self.new }
    {
        self.seats.forget(conn);
        self.wants.drop_those_of(conn);
        self.journal.cut(conn);
    }
}
