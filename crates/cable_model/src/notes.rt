use cable_base::{Copied, OutOfMemory};
use std::alloc::Global;

/// What the server notes of a command, a stream, a broadcast or the store. A note stands in the transcript and is never sent.
#[derive(Clone, Copy, Debug, PartialEq, Eq)]
pub enum Note {
    /// `bad-json`: the command isn't read as JSON, or is no object.
    BadJson,
    /// `unknown-command`: its member `command` is none of the three.
    UnknownCommand,
    /// `no-identifier`: its member `identifier` is no string.
    NoIdentifier,
    /// `bad-data`: its member `data` is no string that is read as JSON.
    BadData,
    /// `bad-identifier`: a callback found no channel's name in the identifier.
    BadIdentifier,
    /// `unknown-channel`: no channel has the identifier's name.
    UnknownChannel,
    /// `data-no-object`: the payload of a message is no JSON object.
    DataNoObject,
    /// `unknown-action`: the channel doesn't declare the payload's action.
    UnknownAction,
    /// `unknown-subscription`: the identifier isn't subscribed.
    UnknownSubscription,
    /// `too-many-subscriptions`: `MOST_SUBSCRIPTIONS` subscriptions stand.
    TooManySubscriptions,
    /// `reserved-stream`: a stream's name begins with `action_cable/`.
    ReservedStream,
    /// `name-too-long`: a stream's or a broadcast's name has over `MOST_NAME` bytes.
    NameTooLong,
    /// `too-many-streams`: the subscription has `MOST_STREAMS` streams.
    TooManyStreams,
    /// `reserved-cast`: a callback's broadcast goes to a name that begins with `action_cable/`.
    ReservedCast,
    /// `payload-too-long`: a callback's broadcast has over `MOST_PAYLOAD` bytes.
    PayloadTooLong,
    /// `busy`: `MOST_WAITING` commands of the connection wait.
    Busy,
    /// `too-long`: a command's text has over `MOST_TEXT` bytes.
    TooLong,
    /// `store-refused`: a commit, a trim or a read failed.
    StoreRefused,
}

impl Copied for Note {
    fn copied(&self, _alloc: Global) -> Result<Note, OutOfMemory> {
        Ok(*self)
    }
}
