ghost use Rattle.std.specs.Prelude.{◌≡◌, ◌++◌, ◌∷◌, ◌≤◌, [], List, take, length, Some, IfOk, IfSome, IsErrOf, IsOk, OnErr, OnOk, is_some};
ghost use Rattle.std.specs.declared.option.Option.{Option};
ghost use Rattle.cable_base.specs.declared.rows.Row.{Row};
ghost use Rattle.poll_turn.specs.Turns.{AreMessages};
ghost use Rattle.table_core.specs.declared.faults.KeeperFault.TheVariants as keeper_fault;
ghost use Rattle.table_core.specs.Keepers.{AreRising, CallsOnce, IsNewRow, KeeperCounts, first_before, greatest_id, most_id, sought, without};

use crate::faults::KeeperFault;
use cable_base::{Millis, Row, RowId};

/// Keeps the rows of a table. What is said of rows holds where a keeper tells its rows, as one in memory does. Whether it tells them, and
/// which of its calls are to fail, is kept by each call. A refused call changes no row.
pub trait Keeper {
    /// Its rows, in order, where it tells them.
    ghost rows: { Self → Option (List Row) };

    /// How many calls failed, which never falls; how many were made, which each call raises by one, unless it stands at its type's end; and
    /// which calls are to fail, where it tells that.
    ghost counts: { Self → KeeperCounts };

    /// What no call changes: for a reference, which one it is.
    ghost Place: { Type 0 } = { Unit {0} };

    ghost place: { Self → Self.Place };

    /// The greatest id of the rows, or 0 where there is none. It is at most `MOST_ID`, and the ids rise.
    fn last_id(&mut self) -> Result<RowId, KeeperFault>
        ensures last { IfSome (rows self.old) (λ told. IfOk result (λ id. id.0 ≡ greatest_id told)) }
        ensures rising { IfSome (rows self.old) (λ told. OnOk result (AreRising told)) }
        ensures most { IfOk result (λ id. id.0 ≤ most_id) }
        ensures same { rows self.new ≡ rows self.old }
        ensures call { CallsOnce (IsOk result) (IsErrOf result keeper_fault.Failed) (counts self.old) (counts self.new) }
        ensures place { place self.new ≡ place self.old };

    /// Puts a row behind the others. Its id is from 1 to `MOST_ID` and above each id there, its moment is below `MOMENT_LIMIT`, its payload
    /// is squeezed JSON, and the hash is that of its name.
    fn insert(&mut self, row: &Row, hash: i64) -> Result<(), KeeperFault>
        requires { IsNewRow (rows self.old) row.now hash }
        ensures ok { IfSome (rows self.old) (λ told. OnOk result (rows self.new ≡ Some (told ++ row.now ∷ []))) }
        ensures tells { is_some (rows self.new) ≡ is_some (rows self.old) }
        ensures err { OnErr result (rows self.new ≡ rows self.old) }
        ensures call { CallsOnce (IsOk result) (IsErrOf result keeper_fault.Failed) (counts self.old) (counts self.new) }
        ensures place { place self.new ≡ place self.old };

    /// The first rows, at most `limit`, with an id above `lower` and a name with one of the hashes. Their payloads are squeezed JSON.
    fn fetch(&mut self, lower: RowId, hashes: &[i64], limit: u64) -> Result<Vec<Row>, KeeperFault>
        ensures ok { IfSome (rows self.old) (λ told. IfOk result (λ found. found.items ≡ take limit (sought lower.0 hashes.now told))) }
        ensures messages { IfOk result (λ found. AreMessages found.items) }
        ensures same { rows self.new ≡ rows self.old }
        ensures call { CallsOnce (IsOk result) (IsErrOf result keeper_fault.Failed) (counts self.old) (counts self.new) }
        ensures place { place self.new ≡ place self.old };

    /// Takes the first rows, at most `limit`, from before a moment and with an id below `below`, and answers how many these are.
    fn trim(&mut self, before: Millis, below: RowId, limit: u64) -> Result<u64, KeeperFault>
        ensures ok { IfSome (rows self.old) (λ told. OnOk result (rows self.new ≡ Some (without (first_before before.0 below.0 limit told) told))) }
        ensures count { IfSome (rows self.old) (λ told. IfOk result (λ count. count ≡ length (first_before before.0 below.0 limit told))) }
        ensures tells { is_some (rows self.new) ≡ is_some (rows self.old) }
        ensures err { OnErr result (rows self.new ≡ rows self.old) }
        ensures call { CallsOnce (IsOk result) (IsErrOf result keeper_fault.Failed) (counts self.old) (counts self.new) }
        ensures place { place self.new ≡ place self.old };
}

/// A keeper that is lent, with the meanings and counts of what it points to.
impl<K: Keeper> Keeper for &mut K {
    ghost use Rattle.std.specs.Borrow.{GName};

    ghost rows = { λ k. K.rows k.now };

    ghost counts = { λ k. K.counts k.now };

    ghost Place = { GName };

    ghost place = { λ k. k.ghost_name };

    fn last_id(&mut self) -> Result<RowId, KeeperFault> {
        (**self).last_id()
    }

    fn insert(&mut self, row: &Row, hash: i64) -> Result<(), KeeperFault> {
        (**self).insert(row, hash)
    }

    fn fetch(&mut self, lower: RowId, hashes: &[i64], limit: u64) -> Result<Vec<Row>, KeeperFault> {
        (**self).fetch(lower, hashes, limit)
    }

    fn trim(&mut self, before: Millis, below: RowId, limit: u64) -> Result<u64, KeeperFault> {
        (**self).trim(before, below, limit)
    }
}
