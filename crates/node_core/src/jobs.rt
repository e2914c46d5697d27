ghost use Rattle.std.specs.Prelude.{◌≡◌, ◌≤◌, ℕ, [], None, Some, false, cond, is_some, length, slice_get, vec_capacity, OnErr, IfOk, IfErr, ◌∷◌};
ghost use Rattle.cable_model.specs.Plans.{IsAnswered, plan_for};
ghost use Rattle.cable_model.specs.Possible.{can_take};
ghost use Rattle.cable_model.specs.Steps.{Step};
ghost use Rattle.conn_core.specs.Payloads.{AreCommittable, CarriesJson};
ghost use Rattle.node_core.specs.Jobs.{IsJob, JobState, work_of};
ghost use Rattle.node_core.specs.Nodes.{GoesOn, HasReady, past, ReadsSame};

use crate::nodes::Node;
use crate::working::Work;
use cable_base::{ConnNo, NodeNo, OutOfMemory, RowId, Text};
use cable_model::{Beside, Entry, Plan, Task};
use channel_book::Callbacks;
use conn_core::plan;
use node_seats::Errand;
use std::alloc::Global;
use std::marker::Model;

/// The plan of a job, with room to note a commit for each of its casts.
#[derive(Debug, Drop)]
struct Planned {
    plan: Plan,
    puts: Vec<Option<RowId>>,
}

/// A piece of a connection that was taken, so that the callbacks run without the node. It must be spent: planned or given up.
#[derive(Debug)]
pub struct Job {
    pub(crate) alloc: Global,
    pub(crate) node: NodeNo,
    pub(crate) conn: ConnNo,
    pub(crate) place: u64,
    pub(crate) user: Text,
    pub(crate) task: Task,
}

impl Model for Job {
    ghost use Rattle.conn_core.specs.Payloads.{CarriesJson};
    ghost use Rattle.node_core.specs.Jobs.{JobState};

    ghost Value = { JobState };

    ghost view = { λ j. record { node = j.node; conn = j.conn; place = j.place; user = j.user; task = j.task } };

    ghost invariant = { λ j. CarriesJson j.task };
}

impl Job {
    /// The connection of the piece. It takes no memory.
    pub fn conn(&self) -> ConnNo
        ensures { result ≡ self.now.conn }
    {
        self.conn
    }

    /// The connection's user. It takes no memory.
    pub fn user(&self) -> &str
        ensures { result.now ≡ self.now.user }
    {
        self.user.as_str()
    }

    /// What the piece needs. It takes no memory.
    pub fn task(&self) -> &Task
        ensures { result.now ≡ self.now.task }
    {
        &self.task
    }

    /// Plans the work with these callbacks. The job comes back where memory is wanted.
    pub fn plan<C: Callbacks>(self, callbacks: &C) -> Result<Work, Job>
        ensures ok { IfOk result (λ w. w ≡ work_of (C.answers callbacks.now) self) }
        ensures err { IfErr result (λ j. j ≡ self) }
    {
        let made = make_plan(self.alloc, &self.task, self.user.as_str(), callbacks);
        let Ok(made) = made else {
            return Err(self);
        };
        let Job {
            alloc: _,
            node,
            conn,
            place,
            user: _,
            task,
        } = self;
        Ok(Work {
            node,
            conn,
            place,
            task,
            plan: made.plan,
            puts: made.puts,
        })
    }

    /// Lets the job go. Its node keeps it out for good.
    pub fn give_up(self) {
        let Job {
            alloc: _,
            node: _,
            conn: _,
            place: _,
            user: _,
            task: _,
        } = self;
    }
}

/// The plan of a task, with room for the commits of its casts.
fn make_plan<C: Callbacks>(
    alloc: Global,
    task: &Task,
    user: &str,
    callbacks: &C,
) -> Result<Planned, OutOfMemory>
    requires { CarriesJson task.now }
    ensures plan { IfOk result (λ p. p.plan ≡ plan_for (C.answers callbacks.now) user.now task.now) }
    ensures casts { IfOk result (λ p. AreCommittable p.plan.casts) }
    ensures answered { IfOk result (λ _. IsAnswered (C.answers callbacks.now) user.now task.now) }
    ensures puts { IfOk result (λ p. p.puts.items ≡ []) }
    ensures room { IfOk result (λ p. length p.plan.casts ≤ vec_capacity p.puts) }
{
    let plan = plan(alloc, task, user, callbacks)?;
    let mut puts = Vec::new(alloc);
    puts.reserve(plan.casts.as_slice().len())?;
    Ok(Planned { plan, puts })
}

impl Node {
    /// Takes the piece of a connection that waits longest. It is `None` exactly where the connection isn't live, a job of it is out, or no
    /// piece waits, and then nothing changes.
    pub fn take(&mut self, conn: ConnNo) -> Result<Option<Job>, OutOfMemory>
        ensures no { self.new.no ≡ self.old.no }
        ensures answer { IfOk result (λ j. is_some j ≡ can_take conn.0 (past self.old)) }
        ensures none { IfOk result (λ j. j ≡ None → ReadsSame self.old self.new) }
        ensures ok { IfOk result (λ j. past self.new ≡ cond (is_some j) (Step.Take conn.0 ∷ past self.old) (past self.old)) }
        ensures job { IfOk result (λ o. (j : JobState) → o ≡ Some j → (j.conn ≡ conn) × IsJob j self.new) }
        ensures goes { GoesOn self.old self.new }
        ensures err { OnErr result (ReadsSame self.old self.new) }
    {
        self.journal.reserve()?;
        let Some(errand) = self.seats.take(conn)? else {
            return Ok(None);
        };
        self.ready.drop_out(conn);
        self.journal.enter(Entry::Take { conn }, Beside::Nothing);
        let Errand { place, user, task } = errand;
        Ok(Some(Job {
            alloc: self.alloc,
            node: self.no,
            conn,
            place,
            user,
            task,
        }))
    }

    /// Takes the piece of the connection that is ready longest. Those of which a piece can be taken are ready, and no other. It is `None`
    /// exactly where none is, and then nothing changes.
    pub fn take_next(&mut self) -> Result<Option<Job>, OutOfMemory>
        ensures no { self.new.no ≡ self.old.no }
        ensures ready { HasReady self.old }
        ensures none { IfOk result (λ j. j ≡ None → ((c : ℕ) → can_take c (past self.old) ≡ false) × ReadsSame self.old self.new) }
        ensures ok { IfOk result (λ o. (j : JobState) → o ≡ Some j
            → (slice_get self.old.ready 0 ≡ Some j.conn) × (past self.new ≡ Step.Take j.conn.0 ∷ past self.old) × IsJob j self.new) }
        ensures goes { GoesOn self.old self.new }
        ensures err { OnErr result (ReadsSame self.old self.new) }
    {
        match self.next_ready() {
            Some(conn) => self.take(conn),
            None => Ok(None),
        }
    }
}
