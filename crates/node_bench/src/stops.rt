use cable_base::OutOfMemory;
use std::alloc::AllocError;
use std::io;
use table_core::StoreFault;

/// Why a run ended early.
#[derive(Debug, Drop)]
pub enum Stop {
    OutOfMemory,
    Refused,
    Io(io::Error),
}

impl From<OutOfMemory> for Stop {
    fn from(_e: OutOfMemory) -> Stop {
        Stop::OutOfMemory
    }
}

impl From<AllocError> for Stop {
    fn from(_e: AllocError) -> Stop {
        Stop::OutOfMemory
    }
}

impl From<StoreFault> for Stop {
    fn from(_e: StoreFault) -> Stop {
        Stop::Refused
    }
}

impl From<io::Error> for Stop {
    fn from(e: io::Error) -> Stop {
        Stop::Io(e)
    }
}
