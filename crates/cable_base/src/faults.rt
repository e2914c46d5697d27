use std::alloc::{AllocError, AllocFailed};

/// Memory was wanted and not to be had.
#[derive(Clone, Copy, Debug, PartialEq, Eq)]
pub struct OutOfMemory;

impl From<AllocError> for OutOfMemory {
    fn from(_e: AllocError) -> OutOfMemory {
        OutOfMemory
    }
}

impl<T: Drop> From<AllocFailed<T>> for OutOfMemory {
    fn from(_e: AllocFailed<T>) -> OutOfMemory {
        OutOfMemory
    }
}

/// A source, a sink or another device refused. Its count of faults tells that it did.
#[derive(Clone, Copy, Debug, PartialEq, Eq)]
pub struct Failed;

/// Why bytes weren't taken: the device failed, or memory was wanted.
#[derive(Clone, Copy, Debug, PartialEq, Eq)]
pub enum Trouble {
    /// The device failed. Its count of faults tells that it did.
    Failed,
    /// Memory was wanted and not to be had.
    OutOfMemory,
}

impl From<OutOfMemory> for Trouble {
    ghost use Rattle.std.specs.Prelude.{◌≡◌};
    ghost use Rattle.cable_base.specs.declared.faults.Trouble.TheVariants as trouble;

    ghost from_gives = { λ _ e. e ≡ trouble.OutOfMemory };

    fn from(_e: OutOfMemory) -> Trouble {
        Trouble::OutOfMemory
    }
}
