ghost use Rattle.std.specs.Prelude.{cond, ◌≡◌, ◌<◌, ◌≤◌, ◌∷◌, ℕ, [], false, None, Some, IfOk, IsOk, OnOk, OnErr, is_some, length, ltb, not, option_map, true};
ghost use Rattle.std.specs.Ordering.{nat_cmp};
ghost use Rattle.std.specs.BTreeMap.{IsOrdered, insert_entry, is_at};
ghost use Rattle.std.specs.BTreeSet.{IsSameSet, contains};
ghost use Rattle.cable_model.specs.Limits.{most_connections};
ghost use Rattle.cable_model.specs.Pieces.{is_closing};
ghost use Rattle.conn_core.specs.Subscriptions.{placed_in};
ghost use Rattle.conn_seat.specs.Seats.{Seated, Becomes, CanFinish, vacant, with_piece, with_taken};
ghost use Rattle.node_seats.specs.Numbers.{Opened, opened_at, seat_at, is_over_at, is_receiving_at, live_among, Rising, receiving_among, with_new};
ghost use Rattle.node_seats.specs.Numbers.{Moves, Lives, CanRestartAll, HasRoomAt, Widens, Prepares, Finished, Stops, StopsOne};
ghost use Rattle.node_seats.specs.Inside.{IsTidy};
ghost use Rattle.node_seats.specs.Slots.{numbers_of, outboxes_of};
ghost use Rattle.node_seats.specs.Outboxes.{Greets, Queues, WidensAll, all_on, forgotten_at, queue_at, room_at, taken_at};
ghost use Rattle.node_seats.specs.Turned.{errand_at};

use crate::slots::{Errand, Slot};
use cable_base::{ConnNo, MOST_CONNECTIONS, OutOfMemory, RowId, SubNo, WantNo};
use cable_model::{Piece, Plan};
use conn_seat::{Out, Outbox, Seat};
use std::alloc::Global;
use std::collections::{BTreeMap, BTreeSet};
use std::marker::Model;

/// The connections of a node, by their numbers: each is one value, with what is queued on it. A number that was opened stays, so that it
/// isn't opened again; of one that is over only its queue is kept, and of a forgotten one how many were taken out of it.
#[derive(Debug, Drop)]
pub struct Seats {
    pub(crate) alloc: Global,
    pub(crate) by_number: BTreeMap<u64, Slot>,
    /// The numbers of those that are live, so that a walk over these doesn't pass those that are over.
    live: BTreeSet<u64>,
}

impl Model for Seats {
    ghost use Rattle.node_seats.specs.Numbers.{NodeSeats};
    ghost use Rattle.node_seats.specs.Slots.{numbers_of, outboxes_of};
    ghost use Rattle.node_seats.specs.Inside.{IsTidy};

    ghost Value = { NodeSeats };

    ghost view = { λ a. record { entries = numbers_of a.by_number.entries; outs = record { entries = outboxes_of a.by_number.entries } } };

    ghost invariant = { λ a. IsTidy (numbers_of a.by_number.entries) a.live };
}

/// Keeps this of a number, in its place. Where memory is wanted for it, nothing changes.
fn keep(by_number: &mut BTreeMap<u64, Slot>, number: u64, slot: Slot) -> Result<(), OutOfMemory>
    ensures ok { OnOk result (by_number.new.entries ≡ insert_entry nat_cmp by_number.old.entries number slot) }
    ensures err { OnErr result (by_number.new.entries ≡ by_number.old.entries) }
    ensures rising { IsOrdered nat_cmp by_number.new }
{
    by_number.insert(number, slot)?;
    Ok(())
}

/// Keeps the slot of a live connection under a number that wasn't used, and enters the number among the live ones. Where memory is wanted
/// for it, nothing changes.
fn keep_live(
    by_number: &mut BTreeMap<u64, Slot>,
    live: &mut BTreeSet<u64>,
    number: u64,
    slot: Slot,
) -> Result<(), OutOfMemory>
    requires { contains nat_cmp live.old number ≡ false }
    ensures ok { OnOk result (by_number.new.entries ≡ insert_entry nat_cmp by_number.old.entries number slot) }
    ensures entered { OnOk result ((c : ℕ) → contains nat_cmp live.new c ≡ cond (is_at (nat_cmp number) c) true (contains nat_cmp live.old c)) }
    ensures err { OnErr result (by_number.new.entries ≡ by_number.old.entries) }
    ensures left { OnErr result (IsSameSet nat_cmp live.old live.new) }
    ensures rising { OnOk result (IsOrdered nat_cmp by_number.new) }
{
    live.insert(number)?;
    if keep(by_number, number, slot).is_err() {
        live.remove(&number);
        return Err(OutOfMemory);
    }
    Ok(())
}

/// Puts the piece of a stop on the connection of this number, where it is live and isn't closing.
fn restart(by_number: &mut BTreeMap<u64, Slot>, number: u64)
    ensures stops { CanRestartAll (numbers_of by_number.old.entries) → StopsOne number (numbers_of by_number.old.entries) (numbers_of by_number.new.entries) }
    ensures outs { outboxes_of by_number.new.entries ≡ outboxes_of by_number.old.entries }
{
    if let Some(slot) = by_number.get_mut(&number) {
        slot.restart();
    }
}

/// Puts the piece of a stop on each live connection that isn't closing.
fn restart_all(by_number: &mut BTreeMap<u64, Slot>, live: &BTreeSet<u64>)
    requires { IsTidy (numbers_of by_number.old.entries) live.now }
    ensures stops { Stops (numbers_of by_number.old.entries) (numbers_of by_number.new.entries) }
    ensures outs { outboxes_of by_number.new.entries ≡ outboxes_of by_number.old.entries }
    ensures tidy { IsTidy (numbers_of by_number.new.entries) live.now }
{
    for number in live {
        restart(by_number, *number);
    }
}

/// What is queued on a connection that opens: its greeting.
fn greeted(alloc: Global, greeting: Out) -> Result<Box<Outbox>, OutOfMemory>
    ensures { IfOk result (λ o. Greets greeting o.value) }
{
    let mut outbox = Box::new(alloc, Outbox::empty(alloc))?;
    outbox.reserve(1)?;
    outbox.put(greeting);
    Ok(outbox)
}

impl Seats {
    /// No number was opened, and nothing is queued. It takes no memory.
    pub fn empty(alloc: Global) -> Seats
        ensures none { result.entries ≡ [] }
        ensures nothing { (c : ℕ) → (queue_at c result.outs ≡ []) × (taken_at c result.outs ≡ 0) }
        ensures none_forgotten { (c : ℕ) → forgotten_at c result.outs ≡ false }
    {
        Seats {
            alloc,
            by_number: BTreeMap::new(alloc),
            live: BTreeSet::new(alloc),
        }
    }

    /// Whether the number was opened. It takes no memory.
    pub fn is_used(&self, conn: ConnNo) -> bool
        ensures used { result ≡ is_some (opened_at conn.0 self.now.entries) }
        ensures rising { Rising self.now.entries }
    {
        self.by_number.contains_key(&conn.0)
    }

    /// Whether as many connections are live as a node takes, which is `MOST_CONNECTIONS`. It takes no memory.
    pub fn is_full(&self) -> bool
        ensures { result ≡ not (ltb (live_among self.now.entries) most_connections) }
    {
        self.live.len() as u64 >= MOST_CONNECTIONS
    }

    /// Whether the number was opened and is no longer live. It takes no memory.
    pub fn is_over(&self, conn: ConnNo) -> bool
        ensures { result ≡ is_over_at conn.0 self.now.entries }
    {
        match self.by_number.get(&conn.0) {
            Some(slot) => slot.is_over(),
            None => false,
        }
    }

    /// The connection of this number, where it is live. It takes no memory.
    pub fn get(&self, conn: ConnNo) -> Option<&Seat>
        ensures { option_map (λ s. s.now) result ≡ seat_at conn.0 self.now.entries }
    {
        self.by_number.get(&conn.0)?.seat()
    }

    /// Opens a connection of this user under a number that wasn't used, where the node isn't full, and queues its greeting.
    pub fn open(&mut self, conn: ConnNo, user: &str, greeting: Out) -> Result<(), OutOfMemory>
        requires unused { opened_at conn.0 self.old.entries ≡ None }
        requires room { live_among self.old.entries < most_connections }
        ensures ok { OnOk result ((s : Seated) × Becomes (vacant user.now) s × (self.new.entries ≡ with_new conn.0 (Opened.Live s) self.old.entries)) }
        ensures queues { OnOk result (Queues (record { conn = conn; out = greeting } ∷ []) self.old.outs self.new.outs) }
        ensures rising { OnOk result (Rising self.new.entries) }
        ensures err { OnErr result (self.new ≡ self.old) }
    {
        let mut seat = Seat::open(self.alloc, user)?;
        seat.reserve(1)?;
        let outbox = greeted(self.alloc, greeting)?;
        let slot = Slot::live(self.alloc, seat, outbox)?;
        keep_live(&mut self.by_number, &mut self.live, conn.0, slot)?;
        Ok(())
    }

    /// Keeps a number that wasn't used as one that is over, and queues what its client is told: no user had the token of its Open.
    pub fn refuse(&mut self, conn: ConnNo, greeting: Out) -> Result<(), OutOfMemory>
        requires unused { opened_at conn.0 self.old.entries ≡ None }
        ensures ok { OnOk result (self.new.entries ≡ with_new conn.0 Opened.Over self.old.entries) }
        ensures queues { OnOk result (Queues (record { conn = conn; out = greeting } ∷ []) self.old.outs self.new.outs) }
        ensures rising { OnOk result (Rising self.new.entries) }
        ensures err { OnErr result (self.new ≡ self.old) }
    {
        let outbox = greeted(self.alloc, greeting)?;
        keep(&mut self.by_number, conn.0, Slot::Over(outbox))
    }

    /// Makes room for so many more pieces on a live connection, which can then be put without memory.
    pub fn reserve(&mut self, conn: ConnNo, more: u64) -> Result<(), OutOfMemory>
        requires live { is_some (seat_at conn.0 self.old.entries) ≡ true }
        ensures same { Moves conn.0 (Lives Becomes) self.old.entries self.new.entries }
        ensures ok { OnOk result (Moves conn.0 (Lives (Widens more)) self.old.entries self.new.entries) }
        ensures outs { self.new.outs ≡ self.old.outs }
    {
        let Some(slot) = self.by_number.get_mut(&conn.0) else {
            unreachable!()
        };
        slot.reserve(more)
    }

    /// Puts a piece behind the others of a live connection, and leaves room for a closing one: that is never refused. Another one is
    /// refused where there is no room for two and memory is wanted, or where no place is left.
    pub fn put(&mut self, conn: ConnNo, piece: Piece) -> Result<(), OutOfMemory>
        requires live { is_some (seat_at conn.0 self.old.entries) ≡ true }
        ensures ok { OnOk result (Moves conn.0 (Lives (λ s t. Becomes (with_piece piece s) t)) self.old.entries self.new.entries) }
        ensures err { OnErr result (Moves conn.0 (Lives Becomes) self.old.entries self.new.entries) }
        ensures room { HasRoomAt conn.0 2 self.old.entries → IsOk result }
        ensures closing { is_closing piece ≡ true → IsOk result }
        ensures outs { self.new.outs ≡ self.old.outs }
    {
        let Some(slot) = self.by_number.get_mut(&conn.0) else {
            unreachable!()
        };
        slot.put(piece)
    }

    /// Takes the piece of the connection that waits longest as a job, and answers what its worker is told, so that the callbacks run
    /// without the connection. It is `None` where the connection isn't live, a job is out or no piece waits, and then nothing changes.
    pub fn take(&mut self, conn: ConnNo) -> Result<Option<Errand>, OutOfMemory>
        ensures answer { IfOk result (λ e. e ≡ errand_at conn.0 self.old.entries) }
        ensures taken { IfOk result (λ e. is_some e ≡ true → Moves conn.0 (Lives (λ s t. Becomes (with_taken s) t)) self.old.entries self.new.entries) }
        ensures none { IfOk result (λ e. e ≡ None → self.new ≡ self.old) }
        ensures err { OnErr result (self.new ≡ self.old) }
        ensures outs { self.new.outs ≡ self.old.outs }
    {
        let alloc = self.alloc;
        let Some(slot) = self.by_number.get_mut(&conn.0) else {
            return Ok(None);
        };
        slot.take(alloc)
    }

    /// Gives the want of a live connection its mark: from now on its stream is held. `false` where it doesn't stand without a mark. It takes
    /// no memory.
    pub fn place(&mut self, conn: ConnNo, sub: SubNo, want: WantNo, mark: RowId) -> bool
        requires live { is_some (seat_at conn.0 self.old.entries) ≡ true }
        ensures placed { Moves conn.0 (Lives (λ s t. t ≡ record s { subs = placed_in sub want mark s.subs })) self.old.entries self.new.entries }
        ensures outs { self.new.outs ≡ self.old.outs }
    {
        let Some(slot) = self.by_number.get_mut(&conn.0) else {
            unreachable!()
        };
        slot.place(sub, want, mark)
    }

    /// Makes the room that `finish` of this plan needs on a live connection, with so many texts and notes to be queued. It is refused
    /// where memory is wanted, or where there are no numbers left for the plan's wants or for what is queued.
    pub fn reserve_plan(&mut self, conn: ConnNo, plan: &Plan, outs: u64) -> Result<(), OutOfMemory>
        requires live { is_some (seat_at conn.0 self.old.entries) ≡ true }
        ensures ok { OnOk result (Moves conn.0 (Lives (Prepares plan.now.change)) self.old.entries self.new.entries) }
        ensures err { OnErr result (self.new.entries ≡ self.old.entries) }
        ensures outs { WidensAll self.old.outs self.new.outs }
        ensures room { OnOk result (outs ≤ room_at conn.0 self.new.outs) }
    {
        let Some(slot) = self.by_number.get_mut(&conn.0) else {
            unreachable!()
        };
        slot.reserve_plan(plan, outs)
    }

    /// Makes the change of the plan of a connection's job, which was reserved, queues what the plan says, and ends the job. A connection
    /// that the change closes is over: its seat's memory goes back, and what is queued stays. It takes no memory.
    pub fn finish(&mut self, conn: ConnNo, plan: &Plan, outs: Vec<Out>)
        requires can { (s : Seated) × (opened_at conn.0 self.old.entries ≡ Some (Opened.Live s)) × CanFinish plan.now.change s }
        requires room { length outs.items ≤ room_at conn.0 self.old.outs }
        ensures made { Moves conn.0 (Finished plan.now.change) self.old.entries self.new.entries }
        ensures queues { Queues (all_on conn outs.items) self.old.outs self.new.outs }
    {
        let Some(slot) = self.by_number.get_mut(&conn.0) else {
            unreachable!()
        };
        if slot.finish(plan, outs) {
            self.live.remove(&conn.0);
        }
    }

    /// Whether the number is live and not closing.
    fn is_receiving(&self, number: u64) -> bool
        ensures { result ≡ is_receiving_at number self.now.entries }
    {
        match self.by_number.get(&number) {
            Some(slot) => slot.is_receiving(),
            None => false,
        }
    }

    /// The connections that are live and not closing, by rising number. It takes time by the live ones, whatever the number of those that
    /// are over.
    pub fn receiving(&self, alloc: Global) -> Result<Vec<ConnNo>, OutOfMemory>
        ensures { IfOk result (λ numbers. numbers.items ≡ receiving_among self.now.entries) }
    {
        let mut numbers = Vec::new(alloc);
        for number in &self.live {
            if self.is_receiving(*number) {
                numbers.push(ConnNo(*number))?;
            }
        }
        Ok(numbers)
    }

    /// Puts the piece of a stop on each live connection that isn't closing. It takes no memory, since there is always room for it.
    pub fn stop(&mut self)
        ensures stops { Stops self.old.entries self.new.entries }
        ensures outs { self.new.outs ≡ self.old.outs }
    {
        restart_all(&mut self.by_number, &self.live);
    }
}
