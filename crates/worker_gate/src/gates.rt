use cable_base::ConnNo;

/// Where a worker can be held up. It is entered while the worker has a planned piece of a connection, behind the plan and before the first
/// commit, and then no lock is held.
pub trait Gate {
    /// Enters with the piece of this connection.
    fn enter(&self, conn: ConnNo);
}

/// Holds up nobody.
#[derive(Clone, Copy, Debug, PartialEq, Eq)]
pub struct FreeGate;

impl Gate for FreeGate {
    fn enter(&self, _conn: ConnNo) {}
}
