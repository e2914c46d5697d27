use cable_base::OutOfMemory;

/// What a call of [`pump_once`](crate::pump_once) came to.
#[derive(Clone, Copy, Debug, PartialEq, Eq)]
pub enum Pumped {
    /// Something came, was kept from before, or was said. There may be more.
    Went,
    /// Nothing came and nothing was said.
    Quiet,
    /// The session is over: its link is closed, or its connection is over, and all that was queued is said.
    Ended,
}

/// Why a call of [`pump_once`](crate::pump_once) stopped.
#[derive(Clone, Copy, Debug, PartialEq, Eq)]
pub enum PumpFault {
    /// The link failed, and the desk was told that the client has gone.
    LinkFault,
    /// The link or the desk wanted memory, or 2^64 - 1 texts and notes were taken out in the call.
    OutOfMemory,
}

impl From<OutOfMemory> for PumpFault {
    ghost use Rattle.std.specs.Prelude.{◌≡◌};
    ghost use Rattle.ws_session.specs.declared.outcomes.PumpFault.TheVariants as fault;

    ghost from_gives = { λ _ e. e ≡ fault.OutOfMemory };

    fn from(_e: OutOfMemory) -> PumpFault {
        PumpFault::OutOfMemory
    }
}
