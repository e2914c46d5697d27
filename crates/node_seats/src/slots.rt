ghost use Rattle.std.specs.Prelude.{◌≡◌, ◌≤◌, IfOk, IsOk, None, OnErr, OnOk, Some, [], false, is_some, length, option_map, true};
ghost use Rattle.cable_model.specs.Pieces.{is_closing};
ghost use Rattle.conn_core.specs.Subscriptions.{placed_in};
ghost use Rattle.conn_seat.specs.Outboxes.{Puts, PutsAll, Takes, forgotten_after};
ghost use Rattle.conn_seat.specs.Outboxes.{Widens as WidensOutbox};
ghost use Rattle.conn_seat.specs.Seats.{Seated, Becomes, CanFinish, with_change, with_piece, with_taken};
ghost use Rattle.node_seats.specs.Numbers.{Opened, is_over_in, is_receiving_in, seat_in, weight};
ghost use Rattle.node_seats.specs.Numbers.{CanRestart, Finished, HasRoomIn, Lives, Prepares, Restarts, Widens};
ghost use Rattle.node_seats.specs.Slots.{opened_of, outbox_of};
ghost use Rattle.node_seats.specs.Turned.{errand_in};

use cable_base::{OutOfMemory, RowId, SubNo, Text, WantNo};
use cable_model::{Piece, Plan, Task};
use conn_seat::{Out, Outbox, Seat};
use std::alloc::Global;
use std::mem::{self, size_of};

/// A live connection: its seat, and what is queued on it. That has a box of its own, which stays where the connection ends: so its end takes
/// no memory.
#[derive(Debug, Drop)]
pub struct Connection {
    pub seat: Seat,
    pub outbox: Box<Outbox>,
}

/// What a node keeps of a number that was opened on it. Numbers stay, so a slot is small.
#[derive(Debug, Drop)]
pub enum Slot {
    /// The connection, which is live.
    Live(Box<Connection>),
    /// It was refused, or its closing piece is finished. What is queued on it can still be taken out.
    Over(Box<Outbox>),
    /// It is over and was forgotten. So many were taken out of what was queued on it.
    Forgotten(u64),
}

const _: () = prove!(size_of::<Slot>() == 16);

/// What its worker is told of a piece that was taken.
#[derive(Debug, PartialEq, Eq, Drop)]
pub struct Errand {
    /// The place of the piece on its connection, counted from 1.
    pub place: u64,
    /// The connection's user.
    pub user: Text,
    /// What the piece needs from the connection.
    pub task: Task,
}

fn is_closing(piece: &Piece) -> bool
    ensures { result ≡ is_closing piece.now }
{
    matches!(piece, Piece::Remote { .. } | Piece::Gone | Piece::Restart)
}

/// Makes room for the piece and for a closing one behind it. For a closing piece there is room.
fn make_room(seat: &mut Seat, piece: &Piece) -> Result<(), OutOfMemory>
    ensures same { Becomes seat.old seat.new }
    ensures ok { OnOk result (is_closing piece.now ≡ false → 2 ≤ seat.new.spare) }
    ensures closing { is_closing piece.now ≡ true → IsOk result }
    ensures enough { 2 ≤ seat.old.spare → IsOk result }
{
    if is_closing(piece) {
        return Ok(());
    }
    seat.reserve(2)
}

impl Connection {
    /// Puts a piece, and leaves room for a closing one.
    fn put(&mut self, piece: Piece) -> Result<(), OutOfMemory>
        ensures ok { OnOk result (Becomes (with_piece piece self.old.seat) self.new.seat) }
        ensures err { OnErr result (Becomes self.old.seat self.new.seat) }
        ensures room { 2 ≤ self.old.seat.spare → IsOk result }
        ensures closing { CanRestart (Opened.Live self.old.seat) → is_closing piece ≡ true → IsOk result }
        ensures keeps { CanRestart (Opened.Live self.old.seat) → CanRestart (Opened.Live self.new.seat) }
        ensures outbox { self.new.outbox.value ≡ self.old.outbox.value }
    {
        if self.seat.is_closing() {
            return Ok(());
        }
        make_room(&mut self.seat, &piece)?;
        match self.seat.put(piece) {
            Ok(()) => Ok(()),
            Err(_) => Err(OutOfMemory),
        }
    }

    /// Takes the piece that waits longest, where one may be taken, and answers what its worker is told.
    fn take(&mut self, alloc: Global) -> Result<Option<Errand>, OutOfMemory>
        ensures answer { IfOk result (λ e. e ≡ errand_in (Some self.old.seat)) }
        ensures taken { IfOk result (λ e. is_some e ≡ true → Becomes (with_taken self.old.seat) self.new.seat) }
        ensures none { IfOk result (λ e. e ≡ None → self.new ≡ self.old) }
        ensures err { OnErr result (self.new ≡ self.old) }
        ensures keeps { CanRestart (Opened.Live self.old.seat) → CanRestart (Opened.Live self.new.seat) }
        ensures outbox { self.new.outbox.value ≡ self.old.outbox.value }
    {
        let user = self.seat.user_text().copy(alloc)?;
        let task = self.seat.take()?;
        let Some(task) = task else {
            return Ok(None);
        };
        let Some(place) = self.seat.job_place() else {
            unreachable!()
        };
        Ok(Some(Errand { place, user, task }))
    }

    /// Makes room for the change of a plan, and for so many more to be queued.
    fn reserve_plan(&mut self, plan: &Plan, outs: u64) -> Result<(), OutOfMemory>
        ensures ok { OnOk result (Prepares plan.now.change self.old.seat self.new.seat) }
        ensures err { OnErr result (self.new.seat ≡ self.old.seat) }
        ensures keeps { CanRestart (Opened.Live self.old.seat) → CanRestart (Opened.Live self.new.seat) }
        ensures outbox { WidensOutbox self.old.outbox.value self.new.outbox.value }
        ensures room { OnOk result (outs ≤ self.new.outbox.value.room) }
    {
        self.outbox.reserve(outs)?;
        self.seat.reserve_plan(plan)
    }

    /// Makes the change of the plan of its job, queues what the plan says, and answers whether the change ended the connection.
    fn finish(&mut self, plan: &Plan, outs: Vec<Out>) -> bool
        requires can { CanFinish plan.now.change self.old.seat }
        requires room { length outs.items ≤ self.old.outbox.value.room }
        ensures made { Becomes (with_change plan.now.change self.old.seat) self.new.seat }
        ensures over { result ≡ self.new.seat.over }
        ensures queued { PutsAll outs.items self.old.outbox.value self.new.outbox.value }
    {
        self.outbox.put_all(outs);
        self.seat.finish(plan);
        self.seat.is_over()
    }
}

impl Slot {
    /// A live connection.
    pub fn live(alloc: Global, seat: Seat, outbox: Box<Outbox>) -> Result<Slot, OutOfMemory>
        ensures seat { IfOk result (λ s. opened_of s ≡ Opened.Live seat) }
        ensures outbox { IfOk result (λ s. outbox_of s ≡ outbox.value) }
    {
        let live = Box::new(alloc, Connection { seat, outbox })?;
        Ok(Slot::Live(live))
    }

    /// Its seat, where it is live.
    pub fn seat(&self) -> Option<&Seat>
        ensures { option_map (λ s. s.now) result ≡ seat_in (Some (opened_of self.now)) }
    {
        match self {
            Slot::Live(live) => Some(&live.seat),
            Slot::Over(_) | Slot::Forgotten(_) => None,
        }
    }

    /// Makes room for so many more pieces on a live connection.
    pub fn reserve(&mut self, more: u64) -> Result<(), OutOfMemory>
        requires { is_some (seat_in (Some (opened_of self.old))) ≡ true }
        ensures same { Lives Becomes (opened_of self.old) (opened_of self.new) }
        ensures ok { OnOk result (Lives (Widens more) (opened_of self.old) (opened_of self.new)) }
        ensures live { weight (opened_of self.new) ≡ weight (opened_of self.old) }
        ensures keeps { CanRestart (opened_of self.old) → CanRestart (opened_of self.new) }
        ensures outbox { outbox_of self.new ≡ outbox_of self.old }
    {
        match self {
            Slot::Live(live) => live.seat.reserve(more),
            Slot::Over(_) | Slot::Forgotten(_) => unreachable!(),
        }
    }

    /// Puts a piece on a live connection, and leaves room for a closing one.
    pub fn put(&mut self, piece: Piece) -> Result<(), OutOfMemory>
        requires { is_some (seat_in (Some (opened_of self.old))) ≡ true }
        ensures ok { OnOk result (Lives (λ s t. Becomes (with_piece piece s) t) (opened_of self.old) (opened_of self.new)) }
        ensures err { OnErr result (Lives Becomes (opened_of self.old) (opened_of self.new)) }
        ensures room { HasRoomIn 2 (seat_in (Some (opened_of self.old))) → IsOk result }
        ensures closing { CanRestart (opened_of self.old) → is_closing piece ≡ true → IsOk result }
        ensures live { weight (opened_of self.new) ≡ weight (opened_of self.old) }
        ensures keeps { CanRestart (opened_of self.old) → CanRestart (opened_of self.new) }
        ensures outbox { outbox_of self.new ≡ outbox_of self.old }
    {
        match self {
            Slot::Live(live) => live.put(piece),
            Slot::Over(_) | Slot::Forgotten(_) => unreachable!(),
        }
    }

    /// Takes the piece that waits longest, where the connection is live and one may be taken, and answers what its worker is told.
    pub fn take(&mut self, alloc: Global) -> Result<Option<Errand>, OutOfMemory>
        ensures answer { IfOk result (λ e. e ≡ errand_in (seat_in (Some (opened_of self.old)))) }
        ensures taken { IfOk result (λ e. is_some e ≡ true → Lives (λ s t. Becomes (with_taken s) t) (opened_of self.old) (opened_of self.new)) }
        ensures none { IfOk result (λ e. e ≡ None → self.new ≡ self.old) }
        ensures err { OnErr result (self.new ≡ self.old) }
        ensures live { weight (opened_of self.new) ≡ weight (opened_of self.old) }
        ensures keeps { CanRestart (opened_of self.old) → CanRestart (opened_of self.new) }
        ensures outbox { outbox_of self.new ≡ outbox_of self.old }
    {
        match self {
            Slot::Live(live) => live.take(alloc),
            Slot::Over(_) | Slot::Forgotten(_) => Ok(None),
        }
    }

    /// Makes room for the change of a plan on a live connection, and for so many more to be queued on it.
    pub fn reserve_plan(&mut self, plan: &Plan, outs: u64) -> Result<(), OutOfMemory>
        requires { is_some (seat_in (Some (opened_of self.old))) ≡ true }
        ensures ok { OnOk result (Lives (Prepares plan.now.change) (opened_of self.old) (opened_of self.new)) }
        ensures err { OnErr result (opened_of self.new ≡ opened_of self.old) }
        ensures live { weight (opened_of self.new) ≡ weight (opened_of self.old) }
        ensures keeps { CanRestart (opened_of self.old) → CanRestart (opened_of self.new) }
        ensures outbox { WidensOutbox (outbox_of self.old) (outbox_of self.new) }
        ensures room { OnOk result (outs ≤ (outbox_of self.new).room) }
    {
        match self {
            Slot::Live(live) => live.reserve_plan(plan, outs),
            Slot::Over(_) | Slot::Forgotten(_) => unreachable!(),
        }
    }

    /// Gives the want of a live connection its mark.
    pub fn place(&mut self, sub: SubNo, want: WantNo, mark: RowId) -> bool
        requires { is_some (seat_in (Some (opened_of self.old))) ≡ true }
        ensures placed { Lives (λ s t. t ≡ record s { subs = placed_in sub want mark s.subs }) (opened_of self.old) (opened_of self.new) }
        ensures live { weight (opened_of self.new) ≡ weight (opened_of self.old) }
        ensures keeps { CanRestart (opened_of self.old) → CanRestart (opened_of self.new) }
        ensures outbox { outbox_of self.new ≡ outbox_of self.old }
    {
        match self {
            Slot::Live(live) => live.seat.place(sub, want, mark),
            Slot::Over(_) | Slot::Forgotten(_) => unreachable!(),
        }
    }

    /// Makes the change of the plan of a live connection's job, queues what the plan says, and answers whether the change ended the
    /// connection: its seat is gone then, and what is queued stays.
    pub fn finish(&mut self, plan: &Plan, outs: Vec<Out>) -> bool
        requires can { (s : Seated) × (opened_of self.old ≡ Opened.Live s) × CanFinish plan.now.change s }
        requires room { length outs.items ≤ (outbox_of self.old).room }
        ensures made { Finished plan.now.change (opened_of self.old) (opened_of self.new) }
        ensures keeps { CanRestart (opened_of self.old) → CanRestart (opened_of self.new) }
        ensures over { (result ≡ true → weight (opened_of self.new) ≡ 0) × (result ≡ false → weight (opened_of self.new) ≡ weight (opened_of self.old)) }
        ensures queued { PutsAll outs.items (outbox_of self.old) (outbox_of self.new) }
    {
        let ended = match self {
            Slot::Live(live) => live.finish(plan, outs),
            Slot::Over(_) | Slot::Forgotten(_) => unreachable!(),
        };
        if ended {
            self.end();
        }
        ended
    }

    /// Ends a live connection: its seat's memory goes back, and what is queued stays.
    fn end(&mut self)
        requires { is_some (seat_in (Some (opened_of self.old))) ≡ true }
        ensures opened { opened_of self.new ≡ Opened.Over }
        ensures outbox { outbox_of self.new ≡ outbox_of self.old }
    {
        let Slot::Live(live) = mem::replace(self, Slot::Forgotten(0)) else {
            unreachable!()
        };
        *self = Slot::Over(Box::into_inner(live).outbox);
    }

    /// Puts the piece of a stop on a live connection, where it isn't closing.
    pub fn restart(&mut self)
        ensures restarts { CanRestart (opened_of self.old) → Restarts (opened_of self.old) (opened_of self.new) }
        ensures keeps { CanRestart (opened_of self.old) → CanRestart (opened_of self.new) }
        ensures outbox { outbox_of self.new ≡ outbox_of self.old }
    {
        if let Slot::Live(live) = self {
            if !live.seat.is_closing() {
                let _ = live.seat.put(Piece::Restart);
            }
        }
    }

    /// Whether it is no longer live.
    pub fn is_over(&self) -> bool
        ensures { result ≡ is_over_in (Some (opened_of self.now)) }
    {
        !matches!(self, Slot::Live(_))
    }

    /// Whether it is live and not closing.
    pub fn is_receiving(&self) -> bool
        ensures { result ≡ is_receiving_in (opened_of self.now) }
    {
        match self {
            Slot::Live(live) => live.seat.is_receiving(),
            Slot::Over(_) | Slot::Forgotten(_) => false,
        }
    }

    /// Whether nothing is queued on it.
    pub fn is_drained(&self) -> bool
        ensures { (result ≡ true → (outbox_of self.now).queued ≡ []) × (result ≡ false → (outbox_of self.now).queued ≡ [] → ⊥) }
    {
        match self {
            Slot::Live(live) => live.outbox.is_empty(),
            Slot::Over(outbox) => outbox.is_empty(),
            Slot::Forgotten(_) => true,
        }
    }

    /// Whether it was forgotten.
    pub fn is_forgotten(&self) -> bool
        ensures { result ≡ (outbox_of self.now).forgotten }
    {
        match self {
            Slot::Live(live) => live.outbox.is_forgotten(),
            Slot::Over(outbox) => outbox.is_forgotten(),
            Slot::Forgotten(_) => true,
        }
    }

    /// Makes room for so many more to be queued.
    pub fn reserve_outs(&mut self, alloc: Global, more: u64) -> Result<(), OutOfMemory>
        ensures opened { opened_of self.new ≡ opened_of self.old }
        ensures same { WidensOutbox (outbox_of self.old) (outbox_of self.new) }
        ensures ok { OnOk result (more ≤ (outbox_of self.new).room) }
    {
        match self {
            Slot::Live(live) => live.outbox.reserve(more),
            Slot::Over(outbox) => outbox.reserve(more),
            Slot::Forgotten(taken) => {
                let mut outbox = Box::new(alloc, Outbox::forgotten(alloc, *taken))?;
                outbox.reserve(more)?;
                *self = Slot::Over(outbox);
                Ok(())
            }
        }
    }

    /// Queues one behind the others, where there is room for it.
    pub fn queue(&mut self, out: Out)
        requires { 1 ≤ (outbox_of self.old).room }
        ensures opened { opened_of self.new ≡ opened_of self.old }
        ensures queued { Puts out (outbox_of self.old) (outbox_of self.new) }
    {
        match self {
            Slot::Live(live) => live.outbox.put(out),
            Slot::Over(outbox) => outbox.put(out),
            Slot::Forgotten(_) => unreachable!(),
        }
    }

    /// Takes out what was queued first.
    pub fn take_out(&mut self) -> Option<Out>
        ensures opened { opened_of self.new ≡ opened_of self.old }
        ensures taken { Takes result (outbox_of self.old) (outbox_of self.new) }
    {
        match self {
            Slot::Live(live) => live.outbox.take_out(),
            Slot::Over(outbox) => outbox.take_out(),
            Slot::Forgotten(_) => None,
        }
    }

    /// Gives back the memory of the queue of one that is over, and keeps only how many were taken out.
    pub fn forget(&mut self)
        requires over { opened_of self.old ≡ Opened.Over }
        requires empty { (outbox_of self.old).queued ≡ [] }
        ensures opened { opened_of self.new ≡ opened_of self.old }
        ensures outbox { outbox_of self.new ≡ forgotten_after (outbox_of self.old).taken }
    {
        if let Slot::Over(outbox) = self {
            let taken = outbox.taken();
            *self = Slot::Forgotten(taken);
        }
    }
}
