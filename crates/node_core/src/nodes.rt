ghost use Rattle.std.specs.Prelude.{◌≡◌, ◌≤◌, ◌+◌, ◌∷◌, [], ℕ, None, Some, true, false, ◌==◌, IfOk, MatchOption, length, slice_get};
ghost use Rattle.cable_model.specs.Journal.{past_of};
ghost use Rattle.cable_model.specs.Legal.{Legal};
ghost use Rattle.cable_model.specs.Possible.{can_take, is_over};
ghost use Rattle.cable_model.specs.Steps.{Step};
ghost use Rattle.cable_model.specs.Transcript.{queued};
ghost use Rattle.node_core.specs.Journals.{beside_in, log_in, told};
ghost use Rattle.node_core.specs.Nodes.{HasReady, is_forgotten, line_on, past, taken_out};

use crate::journals::Journal;
use cable_base::{ConnNo, NodeNo, OutOfMemory, RowId};
use cable_model::Entry;
use conn_seat::Out;
use node_seats::Seats;
use node_turns::Wants;
use poll_turn::Cursor;
use run_queue::Ready;
use std::alloc::Global;
use std::marker::Model;
use subscriber_map::SubscriberMap;

/// One node. Its type keeps that its journal is legal, that its connections, what is queued on them, their holds, the wants that turns are
/// to take and where its listener stands are those of its journal, but that of a forgotten connection it has no want, and that its ready
/// connections are exactly those of which a piece can be taken.
#[derive(Debug, Drop)]
pub struct Node {
    pub(crate) alloc: Global,
    pub(crate) no: NodeNo,
    pub(crate) journal: Journal,
    pub(crate) seats: Seats,
    pub(crate) cursor: Cursor,
    pub(crate) holders: SubscriberMap,
    pub(crate) wants: Wants,
    pub(crate) ready: Ready,
}

impl Model for Node {
    ghost use Rattle.node_core.specs.Nodes.{NodeState, Stands, HasTurnRoom, AreReady};
    ghost use Rattle.cable_model.specs.Journal.{past_of};

    ghost Value = { NodeState };

    ghost view = { λ n. record {
      no = n.no;
      kept = n.journal.kept;
      stored = n.journal.stored;
      outs = n.seats.outs;
      ready = n.ready.waiting;
      wants = n.wants.wanted;
    } };

    ghost invariant = { λ n. record {
      stands : Stands (past_of n.journal.kept) n.seats.entries n.seats.outs n.cursor n.holders n.wants.wanted n.wants.taken;
      turn_room : HasTurnRoom (past_of n.journal.kept) n.journal;
      ready : AreReady n.seats.entries n.ready.waiting;
    } };
}

impl Node {
    /// A node with this journal, which begins at the table's last row.
    fn begin(alloc: Global, no: NodeNo, last: RowId, journal: Journal) -> Node
        requires { past_of journal.kept ≡ Step.Boot last.0 ∷ [] }
        ensures no { result.no ≡ no }
        ensures kept { result.kept ≡ journal.kept }
        ensures stored { result.stored ≡ journal.stored }
        ensures taken { (c : ℕ) → taken_out c result ≡ 0 }
        ensures ready { result.ready ≡ [] }
        ensures none_forgotten { (c : ℕ) → is_forgotten c result ≡ false }
    {
        Node {
            alloc,
            no,
            journal,
            seats: Seats::empty(alloc),
            cursor: Cursor::at(last),
            holders: SubscriberMap::empty(alloc),
            wants: Wants::empty(alloc),
            ready: Ready::empty(alloc),
        }
    }

    /// A node of this number, whose listener begins behind the table's last row. None of its connections is forgotten. It stores its log,
    /// which grows with each call that changes it.
    pub fn boot(alloc: Global, no: NodeNo, last: RowId) -> Result<Node, OutOfMemory>
        ensures no { IfOk result (λ n. n.no ≡ no) }
        ensures booted { IfOk result (λ n. past n ≡ Step.Boot last.0 ∷ []) }
        ensures stored { IfOk result (λ n. n.stored ≡ Some n.kept) }
        ensures taken { IfOk result (λ n. (c : ℕ) → taken_out c n ≡ 0) }
        ensures ready { IfOk result (λ n. n.ready ≡ []) }
        ensures none_forgotten { IfOk result (λ n. (c : ℕ) → is_forgotten c n ≡ false) }
    {
        let journal = Journal::begin(alloc, last)?;
        Ok(Node::begin(alloc, no, last, journal))
    }

    /// As `boot`, but it stores no log: what its calls answer is the same, and no entry takes memory. It takes none.
    pub fn boot_unlogged(alloc: Global, no: NodeNo, last: RowId) -> Node
        ensures no { result.no ≡ no }
        ensures booted { past result ≡ Step.Boot last.0 ∷ [] }
        ensures stored { result.stored ≡ None }
        ensures taken { (c : ℕ) → taken_out c result ≡ 0 }
        ensures ready { result.ready ≡ [] }
        ensures none_forgotten { (c : ℕ) → is_forgotten c result ≡ false }
    {
        Node::begin(alloc, no, last, Journal::unlogged(last))
    }

    /// The log that it stores, in order: behind `boot` an entry for each call that changed it. With what is kept beside each entry it tells
    /// a journal. It is empty where no log is stored. The node's own journal is legal. It takes no memory.
    pub fn log(&self) -> &[Entry]
        ensures log { result.now ≡ log_in self.now.stored }
        ensures legal { Legal (past self.now) }
        ensures paired { length (log_in self.now.stored) ≡ length (beside_in self.now.stored) }
        ensures whole { length (log_in self.now.stored) ≡ length (told self.now.stored) }
    {
        self.journal.entries()
    }

    /// How many entries the log has that it stores, which are as many as the journal has that it tells. It takes no memory.
    pub fn log_len(&self) -> u64
        ensures log { result ≡ length (log_in self.now.stored) }
        ensures whole { result ≡ length (told self.now.stored) }
    {
        self.journal.entries().len() as u64
    }

    /// Whether the number was opened here and is no longer live. It takes no memory.
    pub fn is_over(&self, conn: ConnNo) -> bool
        ensures { result ≡ is_over conn.0 (past self.now) }
    {
        self.seats.is_over(conn)
    }

    /// The connection that is ready longest: `take_next` takes its piece. Those of which a piece can be taken are ready, and no other. It is
    /// `None` exactly where none is. It takes no memory.
    pub fn next_ready(&self) -> Option<ConnNo>
        ensures first { result ≡ slice_get self.now.ready 0 }
        ensures ready { HasReady self.now }
        ensures answer { MatchOption result ((c : ℕ) → can_take c (past self.now) ≡ false) (λ c. can_take c.0 (past self.now) ≡ true) }
    {
        self.ready.front()
    }

    /// Takes out what was queued first on the connection. It is `None` exactly where all that was queued on it was taken out, or nothing
    /// was. It takes no memory, and is no entry.
    pub fn take_out(&mut self, conn: ConnNo) -> Option<Out>
        ensures no { self.new.no ≡ self.old.no }
        ensures kept { self.new.kept ≡ self.old.kept }
        ensures stored { self.new.stored ≡ self.old.stored }
        ensures out { MatchOption result (length (queued conn.0 (past self.old)) ≤ taken_out conn.0 self.old)
            (λ out. slice_get (queued conn.0 (past self.old)) (taken_out conn.0 self.old) ≡ Some (line_on conn.0 out)) }
        ensures taken { MatchOption result (taken_out conn.0 self.new ≡ taken_out conn.0 self.old)
            (λ _. taken_out conn.0 self.new ≡ taken_out conn.0 self.old + 1) }
        ensures others { (c : ℕ) → (c == conn.0) ≡ false → taken_out c self.new ≡ taken_out c self.old }
        ensures ready { self.new.ready ≡ self.old.ready }
        ensures forgotten { (c : ℕ) → is_forgotten c self.new ≡ is_forgotten c self.old }
    {
        self.seats.take_out(conn)
    }
}
