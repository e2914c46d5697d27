ghost use Rattle.std.specs.Prelude.{◌≡◌, ◌≤◌, [], true, false, length, OnOk};
ghost use Rattle.conn_seat.specs.Outboxes.{Widens, Puts, PutsAll, Takes, forgotten_after, unused};

use crate::outs::Out;
use cable_base::OutOfMemory;
use std::alloc::Global;
use std::collections::VecDeque;
use std::marker::Model;

/// What is queued on one connection until its session takes it out, in order. There is always room for as many more as `room` says.
#[derive(Debug, Drop)]
pub struct Outbox {
    queued: VecDeque<Out>,
    taken: u64,
    room: u64,
    forgotten: bool,
}

impl Model for Outbox {
    ghost use Rattle.conn_seat.specs.Outboxes.{OutboxState};
    ghost use Rattle.conn_seat.specs.Inside.{HasPlaces};

    ghost Value = { OutboxState };

    ghost view = { λ a. record { queued = a.queued.items; taken = a.taken; room = a.room; forgotten = a.forgotten } };

    ghost invariant = { λ a. HasPlaces a.queued.len a.queued.cap a.taken a.room };
}

impl Outbox {
    /// Nothing is queued, and nothing was. It takes no memory.
    pub fn empty(alloc: Global) -> Outbox
        ensures { result ≡ unused }
    {
        Outbox {
            queued: VecDeque::new(alloc),
            taken: 0,
            room: 0,
            forgotten: false,
        }
    }

    /// What is left of an outbox that was forgotten, after so many were taken out of it: nothing is queued. It takes no memory.
    pub fn forgotten(alloc: Global, taken: u64) -> Outbox
        ensures { result ≡ forgotten_after taken }
    {
        Outbox {
            queued: VecDeque::new(alloc),
            taken,
            room: 0,
            forgotten: true,
        }
    }

    /// Makes room for so many more. It is refused where memory is wanted, or where the number of all that was ever queued would pass the
    /// end of a `u64`.
    pub fn reserve(&mut self, more: u64) -> Result<(), OutOfMemory>
        ensures same { Widens self.old self.new }
        ensures ok { OnOk result (more ≤ self.new.room) }
    {
        if more <= self.room {
            return Ok(());
        }
        if u64::MAX - self.taken - (self.queued.len() as u64) < more {
            return Err(OutOfMemory);
        }
        self.queued.reserve(more as usize)?;
        self.room = more;
        Ok(())
    }

    /// Queues one behind the others, where there is room for it. It takes no memory.
    pub fn put(&mut self, out: Out)
        requires { 1 ≤ self.old.room }
        ensures { Puts out self.old self.new }
    {
        self.room -= 1;
        self.queued.push_back_reserved(out);
    }

    /// Queues these behind the others, in their order, where there is room for them. It takes no memory.
    pub fn put_all(&mut self, outs: Vec<Out>)
        requires { length outs.items ≤ self.old.room }
        ensures { PutsAll outs.items self.old self.new }
    {
        for out in outs {
            self.put(out);
        }
    }

    /// Takes out the first one. It takes no memory.
    pub fn take_out(&mut self) -> Option<Out>
        ensures { Takes result self.old self.new }
    {
        let first = self.queued.pop_front()?;
        self.taken += 1;
        Some(first)
    }

    /// How many were taken out.
    pub fn taken(&self) -> u64
        ensures { result ≡ self.now.taken }
    {
        self.taken
    }

    /// Whether it was forgotten.
    pub fn is_forgotten(&self) -> bool
        ensures { result ≡ self.now.forgotten }
    {
        self.forgotten
    }

    /// Whether nothing is queued.
    pub fn is_empty(&self) -> bool
        ensures { (result ≡ true → self.now.queued ≡ []) × (result ≡ false → self.now.queued ≡ [] → ⊥) }
    {
        self.queued.is_empty()
    }
}
