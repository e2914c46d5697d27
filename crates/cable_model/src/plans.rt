ghost use Rattle.std.specs.Prelude.{◌≡◌, IfOk};
ghost use Rattle.cable_model.specs.Wants.{makes};

use crate::notes::Note;
use cable_base::{Copied, Listed, Name, OutOfMemory, Text};
use channel_book::Cast;
use std::alloc::Global;

/// What closes a connection.
#[derive(Clone, Copy, Debug, PartialEq, Eq)]
pub enum Closing {
    /// The client has gone.
    Gone,
    /// The node restarts.
    Restart,
    /// The application closes the connections of the user.
    Remote { reconnect: bool },
}

/// What a piece needs from its connection, so that the callbacks run without the node's lock.
#[derive(Debug, PartialEq, Eq, Drop)]
pub enum Task {
    /// There is nothing to do.
    Nothing,
    /// There is this to note, and nothing else.
    Note(Note),
    Subscribe {
        identifier: Text,
    },
    Unsubscribe {
        identifier: Text,
    },
    /// The streams are those of the subscription.
    Perform {
        identifier: Text,
        payload: Text,
        streams: Listed<Name>,
    },
    Row {
        identifier: Text,
        payload: Text,
    },
    Confirm {
        identifier: Text,
    },
    /// The identifiers are those of the subscriptions, in the order in which these were made.
    Close {
        how: Closing,
        identifiers: Listed<Text>,
    },
}

impl Task {
    /// An equal task of its own.
    pub fn copy(&self, alloc: Global) -> Result<Task, OutOfMemory>
        ensures { IfOk result (λ t. t ≡ self.now) }
    {
        Ok(match self {
            Task::Nothing => Task::Nothing,
            Task::Note(note) => Task::Note(*note),
            Task::Subscribe { identifier } => Task::Subscribe {
                identifier: identifier.copy(alloc)?,
            },
            Task::Unsubscribe { identifier } => Task::Unsubscribe {
                identifier: identifier.copy(alloc)?,
            },
            Task::Perform {
                identifier,
                payload,
                streams,
            } => Task::Perform {
                identifier: identifier.copy(alloc)?,
                payload: payload.copy(alloc)?,
                streams: streams.copy(alloc)?,
            },
            Task::Row {
                identifier,
                payload,
            } => Task::Row {
                identifier: identifier.copy(alloc)?,
                payload: payload.copy(alloc)?,
            },
            Task::Confirm { identifier } => Task::Confirm {
                identifier: identifier.copy(alloc)?,
            },
            Task::Close { how, identifiers } => Task::Close {
                how: *how,
                identifiers: identifiers.copy(alloc)?,
            },
        })
    }
}

impl Copied for Task {
    fn copied(&self, alloc: Global) -> Result<Task, OutOfMemory> {
        self.copy(alloc)
    }
}

/// What a piece changes on its connection. The streams are exactly those that become new wants.
#[derive(Debug, PartialEq, Eq, Drop)]
pub enum Change {
    Nothing,
    /// A subscription is made.
    Add {
        identifier: Text,
        streams: Listed<Name>,
    },
    /// The stops end, then the streams are wanted.
    Streams {
        identifier: Text,
        stops: Listed<Name>,
        streams: Listed<Name>,
    },
    /// A subscription ends.
    Remove {
        identifier: Text,
    },
    /// The connection ends, and each subscription with it.
    Close,
}

impl Change {
    /// How many wants it makes.
    pub fn wants_made(&self) -> u64
        ensures { result ≡ makes self.now }
    {
        match self {
            Change::Add { streams, .. } | Change::Streams { streams, .. } => {
                streams.as_slice().len() as u64
            }
            Change::Nothing | Change::Remove { .. } | Change::Close => 0,
        }
    }

    /// An equal change of its own.
    pub fn copy(&self, alloc: Global) -> Result<Change, OutOfMemory>
        ensures { IfOk result (λ c. c ≡ self.now) }
    {
        Ok(match self {
            Change::Nothing => Change::Nothing,
            Change::Add {
                identifier,
                streams,
            } => Change::Add {
                identifier: identifier.copy(alloc)?,
                streams: streams.copy(alloc)?,
            },
            Change::Streams {
                identifier,
                stops,
                streams,
            } => Change::Streams {
                identifier: identifier.copy(alloc)?,
                stops: stops.copy(alloc)?,
                streams: streams.copy(alloc)?,
            },
            Change::Remove { identifier } => Change::Remove {
                identifier: identifier.copy(alloc)?,
            },
            Change::Close => Change::Close,
        })
    }
}

impl Copied for Change {
    fn copied(&self, alloc: Global) -> Result<Change, OutOfMemory> {
        self.copy(alloc)
    }
}

/// What the rules make of a piece, with the answers of the callbacks.
#[derive(Debug, PartialEq, Eq, Drop)]
pub struct Plan {
    /// The texts for the client, in order.
    pub texts: Listed<Text>,
    /// The notes, in order.
    pub notes: Listed<Note>,
    /// The broadcasts to commit, in order. Those that are dropped with a note aren't among them.
    pub casts: Listed<Cast>,
    pub change: Change,
}

impl Plan {
    /// An equal plan of its own.
    pub fn copy(&self, alloc: Global) -> Result<Plan, OutOfMemory>
        ensures { IfOk result (λ p. p ≡ self.now) }
    {
        Ok(Plan {
            texts: self.texts.copy(alloc)?,
            notes: self.notes.copy(alloc)?,
            casts: self.casts.copy(alloc)?,
            change: self.change.copy(alloc)?,
        })
    }
}

impl Copied for Plan {
    fn copied(&self, alloc: Global) -> Result<Plan, OutOfMemory> {
        self.copy(alloc)
    }
}
