ghost use Rattle.std.specs.Prelude.{◌≡◌, IfOk};

use cable_base::{Copied, OutOfMemory, Text};
use std::alloc::Global;

/// A client's command. An identifier is the string as it was sent.
#[derive(Debug, PartialEq, Eq, Drop)]
pub enum Command {
    Subscribe { identifier: Text },
    Unsubscribe { identifier: Text },
    /// The payload is the squeezed text of the JSON that the member `data` holds.
    Message { identifier: Text, payload: Text },
}

/// Why a text is no command, in the order in which the rules are tried.
#[derive(Clone, Copy, Debug, PartialEq, Eq)]
pub enum CommandFault {
    /// The text isn't read as JSON, or is no object.
    BadJson,
    /// The member `command` is none of `subscribe`, `unsubscribe` and `message`.
    UnknownCommand,
    /// The member `identifier` is no string.
    NoIdentifier,
    /// The member `data` of a message is no string that is read as JSON.
    BadData,
    OutOfMemory,
}

impl From<OutOfMemory> for CommandFault {
    ghost use Rattle.std.specs.Prelude.{◌≡◌};
    ghost use Rattle.cable_json.specs.declared.commands.CommandFault.TheVariants as fault;

    ghost from_gives = { λ _ e. e ≡ fault.OutOfMemory };

    fn from(_e: OutOfMemory) -> CommandFault {
        CommandFault::OutOfMemory
    }
}

impl Command {
    /// An equal command of its own.
    pub fn copy(&self, alloc: Global) -> Result<Command, OutOfMemory>
        ensures { IfOk result (λ c. c ≡ self.now) }
    {
        Ok(match self {
            Command::Subscribe { identifier } => Command::Subscribe {
                identifier: identifier.copy(alloc)?,
            },
            Command::Unsubscribe { identifier } => Command::Unsubscribe {
                identifier: identifier.copy(alloc)?,
            },
            Command::Message {
                identifier,
                payload,
            } => Command::Message {
                identifier: identifier.copy(alloc)?,
                payload: payload.copy(alloc)?,
            },
        })
    }
}

impl Copied for Command {
    fn copied(&self, alloc: Global) -> Result<Command, OutOfMemory> {
        self.copy(alloc)
    }
}
