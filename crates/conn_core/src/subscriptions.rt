ghost use Rattle.std.specs.Prelude.{◌≡◌, ◌+◌, ◌^◌, ◌≤◌, ◌++◌, [], OnOk, OnErr, length};
ghost use Rattle.stream_set.specs.Streams.{waits, placed};
ghost use Rattle.conn_core.specs.Subscriptions.{wanted_from, stopped, AreDifferent, AreNew, WantsBelow};

use crate::streaming::{stop_streams, want_streams};
use cable_base::{Name, OutOfMemory, RowId, SubNo, Text, WantNo};
use std::marker::Model;
use stream_set::StreamSet;

/// A subscription of a connection.
#[derive(Debug, Drop)]
pub struct Sub {
    number: SubNo,
    identifier: Text,
    streams: StreamSet,
}

impl Model for Sub {
    ghost use Rattle.conn_core.specs.Subscriptions.{SubParts};

    ghost Value = { SubParts };

    ghost view = { λ a. record { number = a.number; identifier = a.identifier; streams = a.streams } };
}

impl Sub {
    pub(crate) fn new(number: SubNo, identifier: Text, streams: StreamSet) -> Sub
        ensures { result ≡ record { number = number; identifier = identifier; streams = streams } }
    {
        Sub {
            number,
            identifier,
            streams,
        }
    }

    /// Its number: the place of its Subscribe among the pieces of its connection. It takes no memory.
    pub fn number(&self) -> SubNo
        ensures { result ≡ self.now.number }
    {
        self.number
    }

    /// Its identifier, as it was sent. It takes no memory.
    pub fn identifier(&self) -> &str
        ensures { result.now ≡ self.now.identifier }
    {
        self.identifier.as_str()
    }

    /// Its identifier, as a text whose copies share its characters. It takes no memory.
    pub fn identifier_text(&self) -> &Text
        ensures { result.now ≡ self.now.identifier }
    {
        &self.identifier
    }

    /// Its streams. It takes no memory.
    pub fn streams(&self) -> &StreamSet
        ensures { result.now ≡ self.now.streams }
    {
        &self.streams
    }

    pub(crate) fn reserve(&mut self, more: u64) -> Result<(), OutOfMemory>
        ensures number { self.new.number ≡ self.old.number }
        ensures identifier { self.new.identifier ≡ self.old.identifier }
        ensures entries { self.new.streams.entries ≡ self.old.streams.entries }
        ensures ok { OnOk result (more ≤ self.new.streams.spare) }
        ensures spare { self.old.streams.spare ≤ self.new.streams.spare }
        ensures err { OnErr result (self.new ≡ self.old) }
    {
        self.streams.reserve(more)
    }

    pub(crate) fn place(&mut self, want: WantNo, mark: RowId) -> bool
        ensures answer { result ≡ waits want self.old.streams.entries }
        ensures number { self.new.number ≡ self.old.number }
        ensures identifier { self.new.identifier ≡ self.old.identifier }
        ensures entries { self.new.streams.entries ≡ placed want mark self.old.streams.entries }
        ensures spare { self.new.streams.spare ≡ self.old.streams.spare }
    {
        self.streams.place(want, mark)
    }

    /// Ends the stops, and then wants streams of these names in room that was made before.
    pub(crate) fn restream(&mut self, stops: &[Name], names: Vec<Name>, first: WantNo)
        requires room { length names.items ≤ self.old.streams.spare }
        requires different { AreDifferent names.items }
        requires new { AreNew names.items (stopped stops.now self.old.streams.entries) }
        requires below { WantsBelow first.0 self.old.streams.entries }
        requires fits { first.0 + length names.items ≤ 2 ^ 64 }
        ensures number { self.new.number ≡ self.old.number }
        ensures identifier { self.new.identifier ≡ self.old.identifier }
        ensures entries { self.new.streams.entries ≡ stopped stops.now self.old.streams.entries ++ wanted_from first.0 names.items }
    {
        stop_streams(&mut self.streams, stops);
        want_streams(&mut self.streams, names, first);
    }
}
