ghost use Rattle.std.specs.Prelude.{◌≡◌, ◌↔◌, ◌≤◌, ◌<◌, ◌+◌, ◌^◌, ◌-◌, true, not, map, is_some};
ghost use Rattle.std.specs.Prelude.{length, filter, Some, None, IsOk, IsSome, IfOk, IfErr, OnOk, OnErr, option_map, option_copied};
ghost use Rattle.cable_base.specs.Names.{own_name};
ghost use Rattle.cable_model.specs.Pieces.{is_closing};
ghost use Rattle.cable_model.specs.Possible.{is_command, is_empty};
ghost use Rattle.cable_model.specs.Wants.{makes};
ghost use Rattle.conn_core.specs.Subscriptions.{shown, AreApart, WantsApart, placed_in, waits_in};
ghost use Rattle.conn_seat.specs.Tasks.{next_task_of, task_out_of};
ghost use Rattle.conn_seat.specs.Seats.{Becomes, CanFinish, vacant, is_receiving_now, may_take_now, with_piece, with_taken, with_change};

use crate::jobs::Job;
use crate::naming::own_name;
use crate::striking::strike;
use cable_base::{Name, OutOfMemory, RowId, SubNo, Text, WantNo};
use cable_model::{Change, Piece, Plan, Task};
use conn_core::{Conn, Sub};
use run_queue::{Inbox, Unpushed};
use std::alloc::Global;
use std::marker::Model;

/// One connection on its node: its subscriptions, the pieces that wait on it, and the piece that is out as a job. Pieces are worked one at
/// a time, in their order.
#[derive(Debug, Drop)]
pub struct Seat {
    alloc: Global,
    own: Name,
    conn: Conn,
    inbox: Inbox,
    job: Option<Job>,
    closing: bool,
    made: u64,
}

impl Model for Seat {
    ghost use Rattle.std.specs.Prelude.{◌≡◌, ◌<◌, ◌-◌, ◌^◌, option_map};
    ghost use Rattle.cable_base.specs.Names.{own_name};
    ghost use Rattle.run_queue.specs.Inside.{placed};
    ghost use Rattle.conn_seat.specs.declared.jobs.Job.{Job};
    ghost use Rattle.conn_seat.specs.Seats.{Seated};
    ghost use Rattle.conn_seat.specs.Inside.{HasTask};

    ghost Value = { Seated };

    ghost view = { λ a. record {
      user = a.conn.user;
      subs = a.conn.subs;
      over = a.conn.over;
      waiting = a.inbox.waiting;
      last = a.inbox.last;
      taken = a.inbox.taken;
      job = option_map (λ (j : Job). placed j.taken) a.job;
      closing = a.closing;
      made = a.made;
      reserved = a.conn.reserved;
      spare = a.inbox.spare;
    } };

    ghost invariant = { λ a. record {
      made : a.made < 2 ^ 64 - 1;
      own : a.own ≡ own_name a.conn.user;
      task : HasTask a.conn.subs a.job;
    } };
}

fn is_closing(piece: &Piece) -> bool
    ensures { result ≡ is_closing piece.now }
{
    matches!(piece, Piece::Remote { .. } | Piece::Gone | Piece::Restart)
}

impl Seat {
    /// A connection of this user on which nothing was put.
    pub fn open(alloc: Global, user: &str) -> Result<Seat, OutOfMemory>
        ensures { IfOk result (λ s. Becomes (vacant user.now) s) }
    {
        Ok(Seat {
            alloc,
            own: own_name(alloc, user)?,
            conn: Conn::begin(alloc, user)?,
            inbox: Inbox::empty(alloc),
            job: None,
            closing: false,
            made: 0,
        })
    }

    /// Its user. It takes no memory.
    pub fn user(&self) -> &str
        ensures { result.now ≡ self.now.user }
    {
        self.conn.user()
    }

    /// Its user, as a text whose copies share its characters. It takes no memory.
    pub fn user_text(&self) -> &Text
        ensures { result.now ≡ self.now.user }
    {
        self.conn.user_text()
    }

    /// The name of its own stream, which disconnects its user. It takes no memory.
    pub fn own(&self) -> &Name
        ensures { result.now ≡ own_name self.now.user }
    {
        &self.own
    }

    /// Its subscriptions, in the order in which they were made. It takes no memory.
    pub fn subs(&self) -> &[Sub]
        ensures subs { map shown result.now ≡ self.now.subs }
        ensures apart { AreApart self.now.subs }
        ensures wants { WantsApart self.now.subs }
    {
        self.conn.subs()
    }

    /// How many wants it ever made. It takes no memory.
    pub fn made(&self) -> u64
        ensures made { result ≡ self.now.made }
        ensures few { result < 2 ^ 64 - 1 }
    {
        self.made
    }

    /// Whether a closing piece was worked. It takes no memory.
    pub fn is_over(&self) -> bool
        ensures { result ≡ self.now.over }
    {
        self.conn.is_over()
    }

    /// Whether a closing piece was put. It takes no memory.
    pub fn is_closing(&self) -> bool
        ensures { result ≡ self.now.closing }
    {
        self.closing
    }

    /// Whether pieces can be put on it: it is neither over nor closing. It takes no memory.
    pub fn is_receiving(&self) -> bool
        ensures { result ≡ is_receiving_now self.now }
    {
        !self.conn.is_over() && !self.closing
    }

    /// Whether a piece is out as a job. It takes no memory.
    pub fn has_job(&self) -> bool
        ensures { result ≡ is_some self.now.job }
    {
        self.job.is_some()
    }

    /// How many of the pieces that wait are commands. It takes no memory.
    pub fn waiting_commands(&self) -> u64
        ensures { result ≡ length (filter is_command (map (λ p. p.piece) self.now.waiting)) }
    {
        self.inbox.waiting_commands()
    }

    /// Whether a piece waits. It takes no memory.
    pub fn has_waiting(&self) -> bool
        ensures { result ≡ not (is_empty self.now.waiting) }
    {
        self.inbox.first().is_some()
    }

    /// Whether `take` would take a piece. It takes no memory.
    pub fn may_take(&self) -> bool
        ensures { result ≡ may_take_now self.now }
    {
        !self.has_job() && !self.is_over() && self.has_waiting()
    }

    /// The piece that is out as a job. It takes no memory.
    pub fn job(&self) -> Option<&Piece>
        ensures { option_copied result ≡ option_map (λ p. p.piece) self.now.job }
    {
        match &self.job {
            Some(job) => Some(&job.taken.piece),
            None => None,
        }
    }

    /// The place of the piece that is out as a job: the how manieth it was that was put on the connection. It takes no memory.
    pub fn job_place(&self) -> Option<u64>
        ensures { result ≡ option_map (λ p. p.place) self.now.job }
    {
        match &self.job {
            Some(job) => Some(job.taken.place),
            None => None,
        }
    }

    /// Makes room for so many more pieces, which can then be put without memory. It is never refused where the room is there. Else it is
    /// refused where memory is wanted, or where there are not so many places left.
    pub fn reserve(&mut self, more: u64) -> Result<(), OutOfMemory>
        ensures same { Becomes self.old self.new }
        ensures ok { OnOk result (more ≤ self.new.spare) }
        ensures enough { more ≤ self.old.spare → IsOk result }
    {
        self.inbox.reserve(more)
    }

    /// Puts a piece behind the others. Behind a closing piece nothing is put. It is refused where there is no room and memory is wanted,
    /// or where no place is left.
    pub fn put(&mut self, piece: Piece) -> Result<(), Unpushed>
        ensures ok { OnOk result (Becomes (with_piece piece self.old) self.new) }
        ensures err { IfErr result (λ e. e.piece ≡ piece) }
        ensures same { OnErr result (Becomes self.old self.new) }
        ensures room { 0 < self.old.spare → IsOk result }
    {
        if self.closing {
            return Ok(());
        }
        let closing = is_closing(&piece);
        self.inbox.push(piece)?;
        self.closing = closing;
        Ok(())
    }

    /// Takes the piece that waits longest as a job, and answers what it needs from the connection, so that the callbacks run without it.
    /// It is `None` where a job is out, the connection is over or no piece waits, and then nothing changes.
    pub fn take(&mut self) -> Result<Option<Task>, OutOfMemory>
        ensures answer { IfOk result (λ t. t ≡ next_task_of self.old) }
        ensures now { OnOk result (Becomes (with_taken self.old) self.new) }
        ensures none { IfOk result (λ t. t ≡ None → self.new ≡ self.old) }
        ensures err { OnErr result (self.new ≡ self.old) }
    {
        if self.job.is_some() || self.conn.is_over() {
            return Ok(None);
        }
        let Some(piece) = self.inbox.first() else {
            return Ok(None);
        };
        let task = self.conn.task(piece)?;
        let answer = task.copy(self.alloc)?;
        let Some(taken) = self.inbox.take() else {
            unreachable!()
        };
        self.job = Some(Job { taken, task });
        Ok(Some(answer))
    }

    /// Whether this is what the piece that is out needs from the connection. It takes no memory.
    pub fn is_task(&self, task: &Task) -> bool
        ensures { (result ≡ true) ↔ (task_out_of self.now ≡ Some task.now) }
    {
        match &self.job {
            Some(job) => job.needs(task),
            None => false,
        }
    }

    /// Makes the room that `finish` of this plan needs, and keeps copies of the plan's names for it. It is refused where memory is wanted,
    /// or where there are no numbers left for the plan's wants.
    pub fn reserve_plan(&mut self, plan: &Plan) -> Result<(), OutOfMemory>
        ensures ok { OnOk result (self.new ≡ record self.old { reserved = Some plan.now.change }) }
        ensures numbers { OnOk result (self.new.made + makes plan.now.change < 2 ^ 64 - 1) }
        ensures err { OnErr result (self.new ≡ self.old) }
    {
        if plan.change.wants_made() >= u64::MAX - self.made {
            return Err(OutOfMemory);
        }
        self.conn.reserve(plan)
    }

    /// Makes the change of the job's plan, which was reserved, and ends the job. A new subscription gets the place of the job's piece as
    /// its number, and new wants are numbered on. What no longer stands is struck from what waits. It takes no memory.
    pub fn finish(&mut self, plan: &Plan)
        requires { CanFinish plan.now.change self.old }
        ensures { Becomes (with_change plan.now.change self.old) self.new }
    {
        let Some(job) = self.job.take() else {
            unreachable!()
        };
        strike(&mut self.inbox, self.conn.subs(), &plan.change);
        self.conn
            .apply(plan, SubNo(job.taken.place), WantNo(self.made + 1));
        self.made += plan.change.wants_made();
    }

    /// Gives the want of the subscription its mark: from now on its stream is held. `false` where that subscription doesn't stand or has
    /// no such want without a mark. It takes no memory.
    pub fn place(&mut self, sub: SubNo, want: WantNo, mark: RowId) -> bool
        ensures answer { result ≡ waits_in sub want self.old.subs }
        ensures placed { self.new ≡ record self.old { subs = placed_in sub want mark self.old.subs } }
    {
        self.conn.place(sub, want, mark)
    }
}
