ghost use Rattle.std.specs.Prelude.{◌≡◌, ◌≤◌, ◌∷◌, ◌++◌, ℕ, true, map, is_some, length, OnOk, OnErr, IfOk, IfErr, ◌↔◌};
ghost use Rattle.cable_model.specs.Steps.{Step};
ghost use Rattle.cable_model.specs.Wants.{makes};
ghost use Rattle.conn_seat.specs.declared.outs.Out.TheVariants as out;
ghost use Rattle.node_seats.specs.Outboxes.{WidensAll, room_at};
ghost use Rattle.node_seats.specs.Numbers.{Lives, Moves, Prepares, seat_at};
ghost use Rattle.node_core.specs.Finishing.{IsOutIn, outs_of};
ghost use Rattle.node_core.specs.Jobs.{Fits};
ghost use Rattle.node_core.specs.Nodes.{GoesOn, past, ReadsSame};

use crate::journals::Journal;
use crate::nodes::Node;
use crate::serving::refresh;
use crate::working::Work;
use cable_base::{ConnNo, Listed, OutOfMemory, SubNo, Text};
use cable_model::{Beside, Change, Entry, Note, Plan, Task};
use conn_seat::Out;
use node_seats::Seats;
use node_turns::{Wants, release};
use std::alloc::Global;

/// Whether the job that is out on the connection stands at this place and needs this.
fn is_out(seats: &Seats, conn: ConnNo, place: u64, task: &Task) -> bool
    ensures { (result ≡ true) ↔ IsOutIn place task.now (seat_at conn.0 seats.now.entries) }
{
    match seats.get(conn) {
        Some(seat) => seat.job_place() == Some(place) && seat.is_task(task),
        None => false,
    }
}

/// Adds the texts.
fn add_texts(outs: &mut Vec<Out>, alloc: Global, texts: &[Text]) -> Result<(), OutOfMemory>
    ensures { OnOk result (outs.new.items ≡ outs.old.items ++ map out.Text texts.now) }
{
    for text in texts {
        outs.push(Out::Text(text.copy(alloc)?))?;
    }
    Ok(())
}

/// Adds the notes.
fn add_notes(outs: &mut Vec<Out>, notes: &[Note]) -> Result<(), OutOfMemory>
    ensures { OnOk result (outs.new.items ≡ outs.old.items ++ map out.Note notes.now) }
{
    for note in notes {
        outs.push(Out::Note(*note))?;
    }
    Ok(())
}

/// What a plan says: its texts and then its notes.
fn outs_of(alloc: Global, plan: &Plan) -> Result<Vec<Out>, OutOfMemory>
    ensures { IfOk result (λ outs. outs.items ≡ outs_of plan.now) }
{
    let mut outs = Vec::new(alloc);
    add_texts(&mut outs, alloc, plan.texts.as_slice())?;
    add_notes(&mut outs, plan.notes.as_slice())?;
    Ok(outs)
}

/// Makes the room that the finish of a plan needs, and what it queues.
fn make_room(
    alloc: Global,
    conn: ConnNo,
    plan: &Plan,
    wants: &mut Wants,
    journal: &mut Journal,
    seats: &mut Seats,
) -> Result<Vec<Out>, OutOfMemory>
    requires live { is_some (seat_at conn.0 seats.old.entries) ≡ true }
    ensures outs { IfOk result (λ outs. outs.items ≡ outs_of plan.now) }
    ensures queues { WidensAll seats.old.outs seats.new.outs }
    ensures queue_room { IfOk result (λ outs. length outs.items ≤ room_at conn.0 seats.new.outs) }
    ensures wanted { wants.new.wanted ≡ wants.old.wanted }
    ensures wanted_taken { wants.new.taken ≡ wants.old.taken }
    ensures wants_room { OnOk result (makes plan.now.change ≤ wants.new.spare) }
    ensures kept { journal.new.kept ≡ journal.old.kept }
    ensures stored { journal.new.stored ≡ journal.old.stored }
    ensures log_room { OnOk result (2 ≤ journal.new.spare) }
    ensures log_stays { journal.old.spare ≤ journal.new.spare }
    ensures prepares { OnOk result (Moves conn.0 (Lives (Prepares plan.now.change)) seats.old.entries seats.new.entries) }
    ensures err { OnErr result (seats.new.entries ≡ seats.old.entries) }
{
    let outs = outs_of(alloc, plan)?;
    wants.reserve(plan.change.wants_made())?;
    journal.reserve()?;
    seats.reserve_plan(conn, plan, outs.len() as u64)?;
    Ok(outs)
}

impl Node {
    /// Whether the work is that of the job that is out on its connection, with no cast left: it can be finished. It takes no memory.
    pub fn fits(&self, work: &Work) -> bool
        ensures { (result ≡ true) ↔ Fits work.now self.now }
    {
        if work.node != self.no {
            return false;
        }
        if work.puts.len() != work.plan.casts.as_slice().len() {
            return false;
        }
        is_out(&self.seats, work.conn, work.place, &work.task)
    }

    /// Finishes the work, which fits: the texts and then the notes of its plan are queued, its change is made, and what no longer stands
    /// is struck from what waits. The work comes back where memory is wanted, and then all is as before.
    pub fn finish(&mut self, work: Work) -> Result<(), Work>
        requires { Fits work self.old }
        ensures no { self.new.no ≡ self.old.no }
        ensures ok { OnOk result (past self.new ≡ Step.Finish work.conn.0 work.puts work.plan ∷ past self.old) }
        ensures goes { GoesOn self.old self.new }
        ensures token { IfErr result (λ w. w ≡ work) }
        ensures err { OnErr result (ReadsSame self.old self.new) }
    {
        // Room first: behind `make_room` nothing can fail.
        let Ok(()) = self.ready.reserve(1) else {
            return Err(work);
        };
        let Ok(outs) = make_room(
            self.alloc,
            work.conn,
            &work.plan,
            &mut self.wants,
            &mut self.journal,
            &mut self.seats,
        ) else {
            return Err(work);
        };
        let Work {
            node: _,
            conn,
            place,
            task: _,
            plan,
            puts,
        } = work;
        let Some(seat) = self.seats.get(conn) else {
            unreachable!()
        };
        // The holds and the wants are read off the seat as it was.
        release(&mut self.holders, conn, seat, &plan.change);
        self.wants
            .put_change(conn, SubNo(place), seat, &plan.change);
        self.seats.finish(conn, &plan, outs);
        refresh(&mut self.ready, &self.seats, conn);
        let puts = Listed::of(puts);
        self.journal
            .enter(Entry::Finish { conn, puts }, Beside::Worked { plan });
        Ok(())
    }
}
