ghost use Rattle.std.specs.Prelude.{◌≡◌, ◌≤◌, ◌==◌, ℕ, [], ◌∷◌, true, false, is_some, OnOk};
ghost use Rattle.std.specs.List.{AllByRecursion, list_any};
ghost use Rattle.cable_base.specs.declared.numbers.ConnNo.{ConnNo};
ghost use Rattle.node_seats.specs.Numbers.{is_over_at, opened_at};
ghost use Rattle.node_seats.specs.Outboxes.{CanQueue, Forgets, Queues, Spends, TakesOut, WidensAll, forgotten_at, queue_at, room_at};

use crate::seats::Seats;
use cable_base::{ConnNo, OutOfMemory};
use conn_seat::Out;

/// What is to be queued, and on which connection.
#[derive(Debug, PartialEq, Eq, Drop)]
pub struct Queued {
    pub conn: ConnNo,
    pub out: Out,
}

impl Seats {
    /// Makes room for one more to be queued on a connection that was opened.
    fn reserve_one(&mut self, conn: ConnNo) -> Result<(), OutOfMemory>
        requires opened { is_some (opened_at conn.0 self.old.entries) ≡ true }
        ensures entries { self.new.entries ≡ self.old.entries }
        ensures same { WidensAll self.old.outs self.new.outs }
        ensures ok { OnOk result (1 ≤ room_at conn.0 self.new.outs) }
    {
        let alloc = self.alloc;
        let Some(slot) = self.by_number.get_mut(&conn.0) else {
            unreachable!()
        };
        slot.reserve_outs(alloc, 1)
    }

    /// Makes room for one more to be queued on each of these connections, which were opened. It is refused where memory is wanted, or where
    /// the number of all that was ever queued on one would pass the end of a `u64`.
    pub fn reserve_each(&mut self, conns: &[ConnNo]) -> Result<(), OutOfMemory>
        requires opened { AllByRecursion (λ (d : ConnNo). is_some (opened_at d.0 self.old.entries) ≡ true) conns.now }
        ensures entries { self.new.entries ≡ self.old.entries }
        ensures same { WidensAll self.old.outs self.new.outs }
        ensures ok { OnOk result ((c : ℕ) → list_any (λ d. d.0 == c) conns.now ≡ true → 1 ≤ room_at c self.new.outs) }
    {
        for conn in conns {
            self.reserve_one(*conn)?;
        }
        Ok(())
    }

    /// Queues one, behind the others of its connection.
    fn queue(&mut self, more: Queued)
        requires room { 1 ≤ room_at more.conn.0 self.old.outs }
        ensures entries { self.new.entries ≡ self.old.entries }
        ensures queues { Queues (more ∷ []) self.old.outs self.new.outs }
        ensures spends { Spends (more ∷ []) self.old.outs self.new.outs }
    {
        let Some(slot) = self.by_number.get_mut(&more.conn.0) else {
            unreachable!()
        };
        slot.queue(more.out);
    }

    /// Queues these, in their order, each behind the others of its connection, where there is room for them. It takes no memory.
    pub fn queue_all(&mut self, more: Vec<Queued>)
        requires room { CanQueue more.items self.old.outs }
        ensures entries { self.new.entries ≡ self.old.entries }
        ensures queues { Queues more.items self.old.outs self.new.outs }
    {
        for one in more {
            self.queue(one);
        }
    }

    /// Takes out what was queued first on the connection. It is `None` exactly where nothing is queued on it. It takes no memory.
    pub fn take_out(&mut self, conn: ConnNo) -> Option<Out>
        ensures entries { self.new.entries ≡ self.old.entries }
        ensures out { TakesOut conn.0 result self.old.outs self.new.outs }
    {
        self.by_number.get_mut(&conn.0)?.take_out()
    }

    /// Whether nothing is queued on the connection. It takes no memory.
    pub fn is_drained(&self, conn: ConnNo) -> bool
        ensures { (result ≡ true → queue_at conn.0 self.now.outs ≡ []) × (result ≡ false → queue_at conn.0 self.now.outs ≡ [] → ⊥) }
    {
        match self.by_number.get(&conn.0) {
            Some(slot) => slot.is_drained(),
            None => true,
        }
    }

    /// Forgets a connection that is over and on which nothing is queued: the memory of its queue is given back, and only how many were
    /// taken out stays known. It takes no memory.
    pub fn forget(&mut self, conn: ConnNo)
        requires over { is_over_at conn.0 self.old.entries ≡ true }
        requires empty { queue_at conn.0 self.old.outs ≡ [] }
        ensures entries { self.new.entries ≡ self.old.entries }
        ensures forgets { Forgets conn.0 self.old.outs self.new.outs }
    {
        let Some(slot) = self.by_number.get_mut(&conn.0) else {
            unreachable!()
        };
        slot.forget();
    }

    /// Whether the connection was forgotten. It takes no memory.
    pub fn is_forgotten(&self, conn: ConnNo) -> bool
        ensures { result ≡ forgotten_at conn.0 self.now.outs }
    {
        match self.by_number.get(&conn.0) {
            Some(slot) => slot.is_forgotten(),
            None => false,
        }
    }
}
