ghost use Rattle.std.specs.Prelude.{◌≡◌, ◌<◌, ◌++◌, ◌∷◌, [], length, slice_get, option_copied, IfSome};
ghost use Rattle.cable_model.specs.Limits.{CanBeRow};
ghost use Rattle.node_core.specs.Jobs.{WorkState};

use cable_base::{ConnNo, NodeNo, RowId};
use cable_model::{Plan, Task};
use channel_book::Cast;
use std::marker::Model;

/// The work of a job: its plan, and the commits that were made for the plan's casts so far. It must be spent: finished or given up.
#[derive(Debug)]
pub struct Work {
    pub(crate) node: NodeNo,
    pub(crate) conn: ConnNo,
    pub(crate) place: u64,
    pub(crate) task: Task,
    pub(crate) plan: Plan,
    pub(crate) puts: Vec<Option<RowId>>,
}

impl Model for Work {
    ghost use Rattle.std.specs.Prelude.{vec_capacity};
    ghost use Rattle.node_core.specs.Jobs.{WorkState, IsWork};

    ghost Value = { WorkState };

    ghost view = { λ w. record { node = w.node; conn = w.conn; place = w.place; task = w.task; plan = w.plan; puts = w.puts.items } };

    ghost invariant = { λ w. IsWork w.task w.plan w.puts.items (vec_capacity w.puts) };
}

impl Work {
    /// The connection of the piece. It takes no memory.
    pub fn conn(&self) -> ConnNo
        ensures { result ≡ self.now.conn }
    {
        self.conn
    }

    /// The plan's first cast for which no commit was noted. It can be committed as a row. `None` comes exactly where each was. It takes no
    /// memory.
    pub fn next_cast(&self) -> Option<&Cast>
        ensures cast { option_copied result ≡ slice_get self.now.plan.casts (length self.now.puts) }
        ensures row { IfSome result (λ c. CanBeRow c.now.channel c.now.payload) }
    {
        self.plan.casts.as_slice().get(self.puts.len())
    }

    /// Notes the commit of the next cast: its row's id, or `None` where the commit failed. It takes no memory.
    pub fn noted(&mut self, id: Option<RowId>)
        requires { length self.old.puts < length self.old.plan.casts }
        ensures { self.new ≡ record self.old { puts = self.old.puts ++ id ∷ [] } }
    {
        self.puts.push_reserved(id);
    }

    /// Lets the work go. Its node keeps the job out for good.
    pub fn give_up(self) {
        let Work {
            node: _,
            conn: _,
            place: _,
            task: _,
            plan: _,
            puts: _,
        } = self;
    }
}
