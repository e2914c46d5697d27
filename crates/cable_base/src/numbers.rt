use crate::faults::OutOfMemory;
use crate::lists::Copied;
use std::alloc::Global;

/// The number of a connection. It names one connection for good: a number that was opened isn't opened again.
#[derive(Clone, Copy, Debug, PartialEq, Eq, PartialOrd, Ord, Hash)]
pub struct ConnNo(pub u64);

/// The number of a node, from 1 to `LAST_NODE`.
#[derive(Clone, Copy, Debug, PartialEq, Eq, PartialOrd, Ord, Hash)]
pub struct NodeNo(pub u32);

/// The number of a subscription within its connection. 0 is the connection's own, which holds its user's stream.
#[derive(Clone, Copy, Debug, PartialEq, Eq, PartialOrd, Ord, Hash)]
pub struct SubNo(pub u64);

/// The number of a want within its connection: a stream that was asked for. 0 is the connection's own.
#[derive(Clone, Copy, Debug, PartialEq, Eq, PartialOrd, Ord, Hash)]
pub struct WantNo(pub u64);

/// The id of a row of the table, up to `MOST_ID`. 0 stands for "before the first row".
#[derive(Clone, Copy, Debug, PartialEq, Eq, PartialOrd, Ord, Hash)]
pub struct RowId(pub u64);

impl Copied for RowId {
    fn copied(&self, _alloc: Global) -> Result<RowId, OutOfMemory> {
        Ok(*self)
    }
}

/// A moment or a span in whole milliseconds. A moment counts from 1970 and is below `MOMENT_LIMIT`.
#[derive(Clone, Copy, Debug, PartialEq, Eq, PartialOrd, Ord, Hash)]
pub struct Millis(pub u64);
