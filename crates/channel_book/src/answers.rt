ghost use Rattle.std.specs.Prelude.{◌≡◌, IfOk};

use cable_base::{Copied, Listed, Name, OutOfMemory, Text};
use std::alloc::Global;

/// A broadcast that a callback makes.
#[derive(Debug, PartialEq, Eq, Drop)]
pub struct Cast {
    pub channel: Name,
    /// Squeezed JSON.
    pub payload: Text,
}

/// What a callback answers.
#[derive(Debug, PartialEq, Eq, Drop)]
pub struct Answer {
    /// The subscription is refused. It has no meaning in the answer of `perform`.
    pub rejected: bool,
    /// The streams that the subscription is to hold.
    pub streams: Listed<Name>,
    /// The streams that it is to hold no longer.
    pub stops: Listed<Name>,
    /// What is said to the client alone. Squeezed JSON.
    pub says: Listed<Text>,
    pub casts: Listed<Cast>,
}

/// Why a callback has no answer.
#[derive(Clone, Copy, Debug, PartialEq, Eq)]
pub enum CallFault {
    /// The identifier is no JSON object whose member `channel` is a string.
    BadIdentifier,
    /// No channel has the identifier's name.
    UnknownChannel,
    /// The payload is no JSON object.
    BadData,
    /// The channel doesn't declare the payload's action.
    UnknownAction,
    OutOfMemory,
}

impl From<OutOfMemory> for CallFault {
    ghost use Rattle.std.specs.Prelude.{◌≡◌};
    ghost use Rattle.channel_book.specs.declared.answers.CallFault.TheVariants as fault;

    ghost from_gives = { λ _ e. e ≡ fault.OutOfMemory };

    fn from(_e: OutOfMemory) -> CallFault {
        CallFault::OutOfMemory
    }
}

impl Cast {
    /// An equal cast of its own.
    pub fn copy(&self, alloc: Global) -> Result<Cast, OutOfMemory>
        ensures { IfOk result (λ c. c ≡ self.now) }
    {
        Ok(Cast {
            channel: self.channel.copy(alloc)?,
            payload: self.payload.copy(alloc)?,
        })
    }
}

impl Copied for Cast {
    fn copied(&self, alloc: Global) -> Result<Cast, OutOfMemory> {
        self.copy(alloc)
    }
}
