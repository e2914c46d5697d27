ghost use Rattle.std.specs.Prelude.{◌≡◌, ◌≤◌, ℕ, IfOk, IsErr, OnErr};
ghost use Rattle.cable_base.specs.Causes.{HasCause};
ghost use Rattle.cable_link.specs.Doors.{CountsSocket};

use cable_base::Failed;
use mio::net::TcpStream;

/// Who came through a door.
#[derive(Drop)]
pub enum Entered {
    /// A client's socket. Its stream doesn't block.
    Socket(TcpStream),
    /// Nobody, within the time that the door waits.
    Nobody,
}

/// Where sockets come in.
///
/// It counts its sockets and its faults. A count never falls, and one that stands at 2^64 - 1 counts as having risen.
pub trait Door {
    /// How many sockets came in.
    ghost sockets: { Self → ℕ };

    /// How many faults it counted.
    ghost faults: { Self → ℕ };

    /// Who comes next. It waits for a time of the door's own at most.
    fn accept(&mut self) -> Result<Entered, Failed>
        ensures sockets { IfOk result (CountsSocket (sockets self.old) (sockets self.new)) }
        ensures refused { OnErr result (sockets self.new ≡ sockets self.old) }
        ensures cause { HasCause (faults self.old) (faults self.new) result };
}

/// A door that fails at every call, for tests.
#[derive(Debug, Drop)]
pub struct FailingDoor {
    faults: u64,
}

impl FailingDoor {
    /// A door that has counted no fault yet.
    pub fn new() -> FailingDoor
        ensures { ⟦<FailingDoor as Door>⟧.faults result ≡ 0 }
    {
        FailingDoor { faults: 0 }
    }
}

impl Door for FailingDoor {
    ghost sockets = { λ _. 0 };

    ghost faults = { λ d. d.faults };

    fn accept(&mut self) -> Result<Entered, Failed>
        ensures sockets { IfOk result (CountsSocket 0 0) }
        ensures refused { OnErr result (◌≡◌ {A = ℕ} 0 0) }
        ensures cause { HasCause self.old.faults self.new.faults result }

        // It fails at every call.
        ensures fails { IsErr result }
    {
        self.faults = self.faults.saturating_add(1);
        Err(Failed)
    }
}
