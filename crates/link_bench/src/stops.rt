use cable_base::{OutOfMemory, Trouble};
use std::alloc::{AllocError, AllocFailed};
use std::io;

/// Why a run ended early.
#[derive(Debug, Drop)]
pub enum Stop {
    /// Nothing is measured under that word.
    UnknownWord,
    OutOfMemory,
    /// A link failed or was closed.
    LinkFault,
    /// What was waited for didn't come.
    Late,
    Io(io::Error),
}

impl From<OutOfMemory> for Stop {
    fn from(_e: OutOfMemory) -> Stop {
        Stop::OutOfMemory
    }
}

impl From<AllocError> for Stop {
    fn from(_e: AllocError) -> Stop {
        Stop::OutOfMemory
    }
}

impl<T: Drop> From<AllocFailed<T>> for Stop {
    fn from(_e: AllocFailed<T>) -> Stop {
        Stop::OutOfMemory
    }
}

impl From<Trouble> for Stop {
    fn from(trouble: Trouble) -> Stop {
        match trouble {
            Trouble::OutOfMemory => Stop::OutOfMemory,
            Trouble::Failed => Stop::LinkFault,
        }
    }
}

impl From<io::Error> for Stop {
    fn from(e: io::Error) -> Stop {
        Stop::Io(e)
    }
}
