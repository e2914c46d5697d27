ghost use Rattle.std.specs.Prelude.{◌≡◌, ◌+◌, ◌-◌, ◌^◌, ◌<◌, ◌==◌, ℕ, [], ◌∷◌, cond, IfOk, OnOk, Some};
ghost use Rattle.std.specs.Ordering.{nat_cmp};
ghost use Rattle.std.specs.BTreeMap.{get};
ghost use Rattle.node_seats.specs.Numbers.{HasRoomAt};
ghost use Rattle.node_seats.specs.Turned.{HasRoomFor, Roomier, Delivers, Places, pieces_for, needed_in, one_more, or_none};

use crate::seats::Seats;
use cable_base::{ConnNo, OutOfMemory, RowId, SubNo, WantNo};
use cable_model::Piece;
use std::alloc::Global;
use std::collections::BTreeMap;

/// A piece that a turn brings, and the connection that it is for.
#[derive(Debug, PartialEq, Eq, Drop)]
pub struct Delivery {
    pub conn: ConnNo,
    pub piece: Piece,
}

/// A want of a connection that a turn is to take. The connection's own want has the numbers 0.
#[derive(Clone, Copy, Debug, PartialEq, Eq)]
pub struct Wanted {
    pub conn: ConnNo,
    pub sub: SubNo,
    pub want: WantNo,
    /// The confirmation of its subscription is due with it.
    pub confirms: bool,
}

/// Counts one more piece for the number, which needs room for its pieces and for a closing one.
fn count_in(needed: &mut BTreeMap<u64, u64>, number: u64) -> Result<(), OutOfMemory>
    requires { or_none (get nat_cmp needed.old number) < 2 ^ 64 - 1 }
    ensures { OnOk result ((c : ℕ) → get nat_cmp needed.new c ≡ cond (number == c) (Some (one_more (get nat_cmp needed.old c))) (get nat_cmp needed.old c)) }
{
    let more = match needed.get(&number) {
        Some(count) => *count + 1,
        None => 2,
    };
    needed.insert(number, more)?;
    Ok(())
}

/// How much room each number needs for its pieces and for a closing one.
fn needed_for(alloc: Global, deliveries: &[Delivery]) -> Result<BTreeMap<u64, u64>, OutOfMemory>
    ensures { IfOk result (λ m. (c : ℕ) → get nat_cmp m c ≡ needed_in (pieces_for c deliveries.now)) }
{
    let mut needed = BTreeMap::new(alloc);
    for delivery in deliveries {
        count_in(&mut needed, delivery.conn.0)?;
    }
    Ok(needed)
}

impl Seats {
    /// Makes room for so many pieces on a connection, where it is live.
    fn reserve_live(&mut self, conn: ConnNo, more: u64) -> Result<(), OutOfMemory>
        ensures same { Roomier self.old.entries self.new.entries }
        ensures ok { OnOk result (HasRoomAt conn.0 more self.new.entries) }
        ensures outs { self.new.outs ≡ self.old.outs }
    {
        if self.get(conn).is_none() {
            return Ok(());
        }
        self.reserve(conn, more)
    }

    /// Makes room for so many pieces on each of these connections that is live.
    fn reserve_needed(&mut self, needed: &BTreeMap<u64, u64>) -> Result<(), OutOfMemory>
        ensures same { Roomier self.old.entries self.new.entries }
        ensures ok { OnOk result ((c : ℕ) → HasRoomAt c (or_none (get nat_cmp needed.now c)) self.new.entries) }
        ensures outs { self.new.outs ≡ self.old.outs }
    {
        for (number, more) in needed {
            self.reserve_live(ConnNo(*number), *more)?;
        }
        Ok(())
    }

    /// Makes room for these pieces, and for a closing one, on those connections that are live. They can then be put without memory.
    pub fn reserve_all(&mut self, alloc: Global, deliveries: &[Delivery]) -> Result<(), OutOfMemory>
        ensures same { Roomier self.old.entries self.new.entries }
        ensures ok { OnOk result (HasRoomFor deliveries.now self.new.entries) }
        ensures outs { self.new.outs ≡ self.old.outs }
    {
        let needed = needed_for(alloc, deliveries)?;
        self.reserve_needed(&needed)
    }

    /// Puts a piece on its connection, where that is live.
    fn put_live(&mut self, delivery: Delivery)
        requires { HasRoomAt delivery.conn.0 2 self.old.entries }
        ensures delivers { Delivers (delivery ∷ []) self.old.entries self.new.entries }
        ensures outs { self.new.outs ≡ self.old.outs }
    {
        if self.get(delivery.conn).is_some() {
            let _ = self.put(delivery.conn, delivery.piece);
        }
    }

    /// Puts these pieces, one after the other, each on its connection, where that is live, and leaves room for a closing one. It takes
    /// no memory.
    pub fn put_all(&mut self, deliveries: Vec<Delivery>)
        requires room { HasRoomFor deliveries.items self.old.entries }
        ensures delivers { Delivers deliveries.items self.old.entries self.new.entries }
        ensures outs { self.new.outs ≡ self.old.outs }
    {
        for delivery in deliveries {
            self.put_live(delivery);
        }
    }

    /// Gives a want its mark, where its connection is live and it stands without one.
    fn place_live(&mut self, wanted: &Wanted, mark: RowId)
        ensures places { Places mark (wanted.now ∷ []) self.old.entries self.new.entries }
        ensures outs { self.new.outs ≡ self.old.outs }
    {
        if self.get(wanted.conn).is_some() {
            let _ = self.place(wanted.conn, wanted.sub, wanted.want, mark);
        }
    }

    /// Gives these wants their mark, where they stand without one: from now on their streams are held. It takes no memory.
    pub fn place_all(&mut self, wants: &[Wanted], mark: RowId)
        ensures places { Places mark wants.now self.old.entries self.new.entries }
        ensures outs { self.new.outs ≡ self.old.outs }
    {
        for wanted in wants {
            self.place_live(wanted, mark);
        }
    }
}
