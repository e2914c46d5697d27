ghost use Rattle.std.specs.Prelude.{◌≡◌, ◌/◌, ◌∷◌, ◌++◌, [], map, IfOk, OnOk, OnErr};
ghost use Rattle.cable_base.specs.declared.numbers.ConnNo.{ConnNo};
ghost use Rattle.cable_model.specs.Possible.{receiving};
ghost use Rattle.cable_model.specs.Steps.{Step};
ghost use Rattle.node_core.specs.Nodes.{GoesOn, past, ping_of, ReadsSame};

use crate::nodes::Node;
use cable_base::{ConnNo, Millis, OutOfMemory};
use cable_json::ping;
use cable_model::{Beside, Entry};
use conn_seat::Out;
use node_seats::Queued;
use std::alloc::Global;

/// A ping for each of these, at this moment.
fn pings(alloc: Global, conns: &[ConnNo], now: Millis) -> Result<Vec<Queued>, OutOfMemory>
    ensures { IfOk result (λ qs. qs.items ≡ map (ping_of now.0) conns.now) }
{
    let mut queued = Vec::new(alloc);
    for conn in conns {
        let text = ping(alloc, now.0 / 1_000)?;
        queued.push(Queued {
            conn: *conn,
            out: Out::Text(text),
        })?;
    }
    Ok(queued)
}

impl Node {
    /// The connections that are live and not closing, by rising number.
    pub fn receiving(&self) -> Result<Vec<ConnNo>, OutOfMemory>
        ensures { IfOk result (λ conns. map (λ (c : ConnNo). c.0) conns.items ≡ receiving (past self.now)) }
    {
        self.seats.receiving(self.alloc)
    }

    /// Queues a ping on each connection that is live and not closing. It tells the moment, in whole seconds since 1970.
    pub fn beat(&mut self, now: Millis) -> Result<(), OutOfMemory>
        ensures no { self.new.no ≡ self.old.no }
        ensures ok { OnOk result (past self.new ≡ Step.Beat now.0 ∷ past self.old) }
        ensures goes { GoesOn self.old self.new }
        ensures err { OnErr result (ReadsSame self.old self.new) }
    {
        let conns = self.seats.receiving(self.alloc)?;
        let queued = pings(self.alloc, &conns, now)?;
        self.seats.reserve_each(&conns)?;
        self.journal.reserve()?;
        self.seats.queue_all(queued);
        self.journal.enter(Entry::Beat { now }, Beside::Nothing);
        Ok(())
    }
}
