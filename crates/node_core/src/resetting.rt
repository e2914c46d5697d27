ghost use Rattle.std.specs.Prelude.{◌≡◌, ℕ, true, option_map};
ghost use Rattle.std.specs.List.{list_any};
ghost use Rattle.cable_model.specs.Wants.{lower};
ghost use Rattle.node_core.specs.Journals.{begun};
ghost use Rattle.node_core.specs.Nodes.{ForgetsNone, TakesNone, past};
ghost use Rattle.node_core.specs.Resetting.{is_of_one as is_of_conn, may_reset};

use crate::nodes::Node;
use cable_model::Entry;

/// Whether the entry is of a connection.
fn is_of_one(entry: &Entry) -> bool
    ensures { result ≡ is_of_conn entry.now }
{
    match entry {
        Entry::Open { .. }
        | Entry::In { .. }
        | Entry::Drop { .. }
        | Entry::Take { .. }
        | Entry::Finish { .. } => true,
        Entry::Boot { .. }
        | Entry::Stop
        | Entry::Ask { .. }
        | Entry::Deliver { .. }
        | Entry::Beat { .. } => false,
    }
}

/// Whether one of these is of a connection.
fn has_connection(entries: &[Entry]) -> bool
    ensures { result ≡ list_any is_of_conn entries.now }
{
    entries.iter().any(is_of_one)
}

impl Node {
    /// Whether the log can begin again: no turn is out, and no entry of a connection is left in it, so that each connection that it had was
    /// forgotten. It looks at the entries up to the first one of a connection. It takes no memory.
    pub fn may_reset(&self) -> bool
        ensures { result ≡ may_reset self.now }
    {
        !self.cursor.is_out() && !has_connection(self.journal.entries())
    }

    /// Lets the log that is stored begin again: one Boot is left, where the next turn begins. The node's journal is as before, and so is
    /// what it answers. It takes no memory, and is no entry.
    pub fn reset_log(&mut self)
        requires { may_reset self.old ≡ true }
        ensures no { self.new.no ≡ self.old.no }
        ensures kept { self.new.kept ≡ self.old.kept }
        ensures stored { self.new.stored ≡ option_map (λ _. begun (record { 0 = lower (past self.old) })) self.old.stored }
        ensures taken { TakesNone self.old self.new }
        ensures forgotten { ForgetsNone self.old self.new }
        ensures ready { self.new.ready ≡ self.old.ready }
    {
        self.journal.begin_again(self.cursor.lower());
    }
}
