ghost use Rattle.std.specs.Prelude.{ℕ, Bool, List, Option, Result};
ghost use Rattle.cable_base.specs.declared.faults.OutOfMemory.{OutOfMemory};
ghost use Rattle.cable_base.specs.declared.numbers.ConnNo.{ConnNo};
ghost use Rattle.conn_seat.specs.declared.outs.Out.{Out};
ghost use Rattle.poll_turn.specs.Turns.{CaughtState, TurnState};
ghost use Rattle.node_core.specs.Jobs.{JobState, WorkState};
ghost use Rattle.node_core.specs.declared.arriving.ArriveFault.{ArriveFault};
ghost use Rattle.node_core.specs.declared.opening.OpenFault.{OpenFault};

use crate::arriving::ArriveFault;
use crate::jobs::Job;
use crate::nodes::Node;
use crate::opening::OpenFault;
use crate::working::Work;
use cable_base::{ConnNo, OutOfMemory, Steps};
use channel_book::Callbacks;
use conn_seat::Out;
use poll_turn::{Caught, Turn};
use std::sync::ledger::Ledger;

/// A node as its sessions and its workers have it: locked for each call, or their own.
///
/// Each call names a relation between the desk before, the arguments, the answer and the desk after. A [`Node`] names its
/// events. The calls have no conditions.
pub trait Desk {
    ghost opens: { Self → ConnNo → (token : List ℕ) → (user : Option (List ℕ)) → Result (Unit {0}) OpenFault → Self → Type 0 };

    ghost arrives: { Self → ConnNo → (text : List ℕ) → Result (Unit {0}) ArriveFault → Self → Type 0 };

    ghost goes: { Self → ConnNo → Result Bool OutOfMemory → Self → Type 0 };

    ghost takes: { Self → Result (Option JobState) OutOfMemory → Self → Type 0 };

    ghost finishes: { Self → WorkState → Result (Unit {0}) WorkState → Self → Type 0 };

    ghost takes_out: { Self → ConnNo → Option Out → Self → Type 0 };

    ghost tells_over: { Self → ConnNo → Bool → Type 0 };

    ghost forgets: { Self → ConnNo → Self → Type 0 };

    /// Opens a connection under this number, for the user of the token.
    fn open_conn<C: Callbacks>(
        &mut self,
        conn: ConnNo,
        token: &str,
        callbacks: &C,
    ) -> Result<(), OpenFault>
        ensures opens { opens self.old conn token.now ((C.answers callbacks.now).identify token.now) result self.new };

    /// Puts a client's text on its connection.
    fn arrive(&mut self, conn: ConnNo, text: &str) -> Result<(), ArriveFault>
        ensures arrives { arrives self.old conn text.now result self.new };

    /// The client has gone. `false` where there is nothing to close.
    fn gone(&mut self, conn: ConnNo) -> Result<bool, OutOfMemory>
        ensures goes { goes self.old conn result self.new };

    /// Takes a piece of the connection that is ready longest. `None` where none is ready.
    fn take_next(&mut self) -> Result<Option<Job>, OutOfMemory>
        ensures takes { takes self.old result self.new };

    /// Finishes the work. It comes back where memory is wanted. Work that doesn't fit the job that is out is given up, and changes nothing.
    fn finish(&mut self, work: Work) -> Result<(), Work>
        ensures finishes { finishes self.old work result self.new };

    /// Takes out what was queued first on the connection. `None` where all was taken out.
    fn take_out(&mut self, conn: ConnNo) -> Option<Out>
        ensures takes_out { takes_out self.old conn result self.new };

    /// Whether the number was opened and is no longer live.
    fn is_over(&self, conn: ConnNo) -> bool
        ensures tells_over { tells_over self.now conn result };

    /// Forgets a connection that is over, once all that was queued on it was taken out. Of another one it changes nothing.
    fn forget(&mut self, conn: ConnNo)
        ensures forgets { forgets self.old conn self.new };
}

/// A node as its listener has it. Each call names a relation as those of [`Desk`] do, and has no condition.
pub trait Ears {
    ghost asks: { Self → Result (Option TurnState) OutOfMemory → Self → Type 0 };

    ghost delivers: { Self → CaughtState → Result (Unit {0}) CaughtState → Self → Type 0 };

    /// Asks the next turn. `None` where a turn is out.
    fn ask(&mut self) -> Result<Option<Turn>, OutOfMemory>
        ensures asks { asks self.old result self.new };

    /// Delivers what the turn that is out caught. It comes back where memory is wanted. What was caught for another turn is given up, and
    /// changes nothing.
    fn deliver<L: Ledger>(&mut self, caught: Caught, steps: &mut Steps<L>) -> Result<(), Caught>
        ensures delivers { delivers self.old caught result self.new };
}

impl Desk for Node {
    ghost use Rattle.node_core.specs.Desks.{Arrives, Finishes, Forgets, Leaves, Opens, TakesNext, TakesOut, TellsOver};

    ghost opens = { λ old conn token user result new. Opens old conn token user result new };

    ghost arrives = { λ old conn text result new. Arrives old conn text result new };

    ghost goes = { λ old conn result new. Leaves old conn result new };

    ghost takes = { λ old result new. TakesNext old result new };

    ghost finishes = { λ old work result new. Finishes old work result new };

    ghost takes_out = { λ old conn result new. TakesOut old conn result new };

    ghost tells_over = { λ n conn answer. TellsOver n conn answer };

    ghost forgets = { λ old conn new. Forgets old conn new };

    fn open_conn<C: Callbacks>(
        &mut self,
        conn: ConnNo,
        token: &str,
        callbacks: &C,
    ) -> Result<(), OpenFault> {
        Node::open_conn(self, conn, token, callbacks)
    }

    fn arrive(&mut self, conn: ConnNo, text: &str) -> Result<(), ArriveFault> {
        Node::arrive(self, conn, text)
    }

    fn gone(&mut self, conn: ConnNo) -> Result<bool, OutOfMemory> {
        Node::gone(self, conn)
    }

    fn take_next(&mut self) -> Result<Option<Job>, OutOfMemory> {
        Node::take_next(self)
    }

    fn finish(&mut self, work: Work) -> Result<(), Work> {
        if !self.fits(&work) {
            work.give_up();
            return Ok(());
        }
        Node::finish(self, work)
    }

    fn take_out(&mut self, conn: ConnNo) -> Option<Out> {
        Node::take_out(self, conn)
    }

    fn is_over(&self, conn: ConnNo) -> bool {
        Node::is_over(self, conn)
    }

    fn forget(&mut self, conn: ConnNo) {
        if self.may_forget(conn) {
            Node::forget(self, conn);
        }
    }
}

impl Ears for Node {
    ghost use Rattle.node_core.specs.Desks.{Asks, Delivers};

    ghost asks = { λ old result new. Asks old result new };

    ghost delivers = { λ old caught result new. Delivers old caught result new };

    fn ask(&mut self) -> Result<Option<Turn>, OutOfMemory> {
        Node::ask(self)
    }

    fn deliver<L: Ledger>(&mut self, caught: Caught, steps: &mut Steps<L>) -> Result<(), Caught> {
        if !self.expects(&caught) {
            caught.give_up();
            return Ok(());
        }
        Node::deliver(self, caught, steps)
    }
}
