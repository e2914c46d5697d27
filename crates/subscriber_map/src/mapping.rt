ghost use Rattle.std.specs.Prelude.{◌≡◌, ◌≢◌, ℕ, List, [], ◌∷◌, IfOk, OnOk, OnErr, map, suc};
ghost use Rattle.std.specs.List.{list_any, All};
ghost use Rattle.std.specs.List.Sorted.{IsPermutation, IsSorted};
ghost use Rattle.std.specs.Ordering.{nat_cmp};
ghost use Rattle.std.specs.Cmp.Lexicographic.{slice_cmp};
ghost use Rattle.std.specs.FinMap as maps;
ghost use Rattle.cable_base.specs.Hash.{channel_hash_of};
ghost use Rattle.subscriber_map.specs.Holds.{is_of, AreHolds, IsNewAmong};
ghost use Rattle.subscriber_map.specs.HoldMaps.{holds_at, with_hold_at, without_at};

use crate::holding::{Hold, Holds};
use cable_base::{ConnNo, Listed, Name, OutOfMemory, Steps, WantNo, channel_hash};
use indexmap::IndexMap;
use std::alloc::Global;
use std::marker::Model;
use std::sync::ledger::Ledger;

/// The holds of a name, and the hash by which the table finds its rows.
#[derive(Debug, Drop)]
struct Held {
    hash: i64,
    holds: Holds,
}

/// The holds of each name that has any. The names stand in no order.
#[derive(Debug, Drop)]
pub struct SubscriberMap {
    names: IndexMap<String, Held>,
}

impl Model for SubscriberMap {
    ghost use Rattle.subscriber_map.specs.HoldMaps.{HoldMap, hold_map_code};
    ghost use Rattle.subscriber_map.specs.Entries.{map_of, AreEntries};

    ghost Value = { HoldMap };

    ghost coded = { hold_map_code };

    ghost view = { λ a. map_of a.names.entries };

    ghost invariant = { λ a. AreEntries a.names.entries };
}

/// A name with its first hold.
fn first_held(alloc: Global, name: &str, hold: Hold) -> Result<Held, OutOfMemory>
    ensures hash { IfOk result (λ held. held.hash ≡ channel_hash_of name.now) }
    ensures holds { IfOk result (λ held. held.holds ≡ hold ∷ []) }
{
    let mut holds = Holds::empty(alloc);
    holds.add(hold)?;
    Ok(Held {
        hash: channel_hash(name),
        holds,
    })
}

/// Puts the names in byte order.
fn sort_names(names: &mut Vec<Name>)
    ensures same { IsPermutation names.old.items names.new.items }
    ensures sorted { IsSorted (slice_cmp nat_cmp) names.new.items }
{
    names.sort_unstable_by(|name, other| name.as_str().cmp(&other.as_str()));
}

impl SubscriberMap {
    /// The map without holds. It takes no memory.
    pub fn empty(alloc: Global) -> SubscriberMap
        ensures { result ≡ maps.empty }
    {
        SubscriberMap {
            names: IndexMap::new(alloc),
        }
    }

    /// Adds a hold of a name, which has none of this connection with this subscription or with this want.
    pub fn add(&mut self, name: &str, hold: Hold) -> Result<(), OutOfMemory>
        requires { IsNewAmong hold (holds_at self.old name.now) }
        ensures ok { OnOk result (self.new ≡ with_hold_at self.old name.now hold) }
        ensures err { OnErr result (self.new ≡ self.old) }

        // Taking it away again gives the map as it was.
        ensures back { without_at (with_hold_at self.old name.now hold) name.now hold.conn hold.want ≡ self.old }
    {
        let Some(held) = self.names.get_mut(name) else {
            let alloc = *self.names.allocator();
            let held = first_held(alloc, name, hold)?;
            self.names.insert(String::from_str(alloc, name)?, held)?;
            return Ok(());
        };
        held.holds.add(hold)
    }

    /// Takes the hold of a connection's want away, and answers whether it was there. It takes no memory.
    pub fn remove(&mut self, name: &str, conn: ConnNo, want: WantNo) -> bool
        ensures was { result ≡ list_any (is_of conn want) (holds_at self.old name.now) }
        ensures left { self.new ≡ without_at self.old name.now conn want }
    {
        let Some(held) = self.names.get_mut(name) else {
            return false;
        };
        let was = held.holds.remove(conn, want);
        if held.holds.is_empty() {
            self.names.swap_remove(name);
        }
        was
    }

    /// The holds of a name, by rising connection and then by rising subscription. It takes one step, and no memory.
    pub fn holders<L: Ledger>(&self, name: &str, steps: &mut Steps<L>) -> &[Hold]
        ensures holds { result.now ≡ holds_at self.now name.now }
        ensures order { AreHolds result.now }
        ensures steps { steps.new ≡ suc steps.old }
    {
        steps.tick();
        match self.names.get(name) {
            Some(held) => held.holds.as_slice(),
            None => &[],
        }
    }

    /// Each name that has a hold, once, in byte order.
    pub fn names(&self, alloc: Global) -> Result<Listed<Name>, OutOfMemory>
        ensures names { IfOk result (λ names. names ≡ maps.keys self.now) }
        ensures held { IfOk result (All (λ name. holds_at self.now name ≢ [])) }
    {
        let mut names = Vec::with_capacity(alloc, self.names.len())?;
        for name in self.names.keys() {
            names.push(Name::new(alloc, name.as_str())?)?;
        }
        sort_names(&mut names);
        Ok(Listed::of(names))
    }

    /// The channel hash of each name that has a hold, in no order. None is computed anew.
    pub fn hashes(&self, alloc: Global) -> Result<Vec<i64>, OutOfMemory>
        ensures hashes { IfOk result (λ hashes. IsPermutation hashes.items (map channel_hash_of (maps.keys self.now))) }
        ensures held { OnOk result (All (λ name. holds_at self.now name ≢ []) (maps.keys self.now)) }
    {
        let mut hashes = Vec::with_capacity(alloc, self.names.len())?;
        for held in self.names.values() {
            hashes.push(held.hash)?;
        }
        Ok(hashes)
    }
}
