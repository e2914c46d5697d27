ghost use Rattle.std.specs.Prelude.{◌≡◌, ◌==◌, ◌≤◌, [], OnOk, OnErr, length, insert};
ghost use Rattle.std.specs.List.{list_any};
ghost use Rattle.subscriber_map.specs.Holds.{is_before, is_of, with_hold, without, IsNewAmong, AreHolds};

use cable_base::{ConnNo, OutOfMemory, RowId, SubNo, WantNo};
use std::alloc::Global;
use std::marker::Model;

/// A want of a connection that holds a name: rows of the name with an id above the mark go to its subscription.
#[derive(Clone, Copy, Debug, PartialEq, Eq)]
pub struct Hold {
    pub conn: ConnNo,
    pub sub: SubNo,
    pub want: WantNo,
    pub mark: RowId,
}

/// The holds of one name, by rising connection and then by rising subscription.
#[derive(Debug, Drop)]
pub struct Holds {
    items: Vec<Hold>,
}

impl Model for Holds {
    ghost use Rattle.std.specs.Prelude.{List};
    ghost use Rattle.subscriber_map.specs.declared.holding.Hold.{Hold};
    ghost use Rattle.subscriber_map.specs.Holds.{AreHolds};

    ghost Value = { List Hold };

    ghost view = { λ a. a.items.items };

    ghost invariant = { λ a. AreHolds a.items.items };
}

/// Whether a hold stands before another: by connection, and then by subscription.
fn stands_before(hold: &Hold, other: &Hold) -> bool
    ensures { result ≡ is_before hold.now other.now }
{
    hold.conn < other.conn || (hold.conn == other.conn && hold.sub < other.sub)
}

/// The place of a new hold: behind all that stand before it.
fn place_for(holds: &[Hold], hold: &Hold) -> usize
    requires { AreHolds holds.now }
    ensures within { result ≤ length holds.now }
    ensures place { insert holds.now result hold.now ≡ with_hold hold.now holds.now }
{
    holds.partition_point(|other| stands_before(other, hold))
}

impl Holds {
    pub fn empty(alloc: Global) -> Holds
        ensures { result ≡ [] }
    {
        Holds {
            items: Vec::new(alloc),
        }
    }

    pub fn as_slice(&self) -> &[Hold]
        ensures items { result.now ≡ self.now }
        ensures holds { AreHolds result.now }
    {
        self.items.as_slice()
    }

    pub fn is_empty(&self) -> bool
        ensures { result ≡ (length self.now == 0) }
    {
        self.items.is_empty()
    }

    /// Puts a hold in its place.
    pub fn add(&mut self, hold: Hold) -> Result<(), OutOfMemory>
        requires { IsNewAmong hold self.old }
        ensures ok { OnOk result (self.new ≡ with_hold hold self.old) }
        ensures err { OnErr result (self.new ≡ self.old) }

        // Taking it away again gives the holds as they were.
        ensures back { without hold.conn hold.want (with_hold hold self.old) ≡ self.old }
    {
        let place = place_for(&self.items, &hold);
        self.items.insert(place, hold)?;
        Ok(())
    }

    /// Takes the hold of this connection's want away, and answers whether it was there.
    pub fn remove(&mut self, conn: ConnNo, want: WantNo) -> bool
        ensures was { result ≡ list_any (is_of conn want) self.old }
        ensures left { self.new ≡ without conn want self.old }
    {
        let was = self
            .items
            .iter()
            .any(|hold| hold.conn == conn && hold.want == want);
        self.items
            .retain(|hold| !(hold.conn == conn && hold.want == want));
        was
    }
}
