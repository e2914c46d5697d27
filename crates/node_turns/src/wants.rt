ghost use Rattle.std.specs.Prelude.{◌≡◌, ◌==◌, ◌≤◌, ◌<◌, ◌+◌, ◌^◌, ◌&&◌, [], ◌∷◌, ◌++◌, length, map, take, drop, OnOk};
ghost use Rattle.cable_model.specs.Wants.{makes};
ghost use Rattle.conn_core.specs.Bare.{bare};
ghost use Rattle.node_turns.specs.Wants.{wanted_but};
ghost use Rattle.node_turns.specs.Wished.{wanted_above, wanted_with, number_named};
ghost use Rattle.conn_core.specs.Subscriptions.{shown};

use cable_base::{ConnNo, Name, OutOfMemory, SubNo, WantNo};
use cable_model::Change;
use conn_core::{Sub, sub_named};
use conn_seat::Seat;
use node_seats::Wanted;
use std::alloc::Global;
use std::marker::Model;

/// The wants of a node's connections that no turn took, in the order in which they were made. The turn that is out takes the first of
/// them: those that were made when it was asked.
#[derive(Debug, Drop)]
pub struct Wants {
    wanted: Vec<Wanted>,
    taken: u64,
}

impl Model for Wants {
    ghost use Rattle.std.specs.Prelude.{◌-◌, ◌≤◌, length, vec_len, vec_capacity};
    ghost use Rattle.node_turns.specs.Wants.{WantsState};

    ghost Value = { WantsState };

    ghost view = { λ a. record { wanted = a.wanted.items; taken = a.taken; spare = vec_capacity a.wanted - vec_len a.wanted } };

    ghost invariant = { λ a. a.taken ≤ length a.wanted.items };
}

/// Whether a confirmation that comes with the first want comes with this one.
fn is_due(confirms: bool, count: u64) -> bool
    ensures { result ≡ (confirms && (count == 0)) }
{
    confirms && count == 0
}

/// The number of the subscription with this identifier, 0 where none has it.
#[tactic(auto, using(crate::proofs::Putting::number_found))]
fn number_of(subs: &[Sub], identifier: &str) -> SubNo
    ensures { result.0 ≡ number_named identifier.now (bare (map shown subs.now)).subs }
{
    match sub_named(subs, identifier) {
        Some(sub) => sub.number(),
        None => SubNo(0),
    }
}

impl Wants {
    /// No want is to be taken. It takes no memory.
    pub fn empty(alloc: Global) -> Wants
        ensures wanted { result.wanted ≡ [] }
        ensures taken { result.taken ≡ 0 }
    {
        Wants {
            wanted: Vec::new(alloc),
            taken: 0,
        }
    }

    /// Makes room for so many more, which can then be put without memory.
    pub fn reserve(&mut self, more: u64) -> Result<(), OutOfMemory>
        ensures wanted { self.new.wanted ≡ self.old.wanted }
        ensures taken { self.new.taken ≡ self.old.taken }
        ensures ok { OnOk result (more ≤ self.new.spare) }
    {
        self.wanted.reserve(more as usize)?;
        Ok(())
    }

    /// Puts a want behind the others, in room that was made before.
    pub fn put(&mut self, wanted: Wanted)
        requires { 0 < self.old.spare }
        ensures wanted { self.new.wanted ≡ self.old.wanted ++ wanted ∷ [] }
        ensures taken { self.new.taken ≡ self.old.taken }
        ensures spare { self.new.spare + 1 ≡ self.old.spare }
    {
        self.wanted.push_reserved(wanted);
    }

    /// Puts wants of a subscription for these streams, numbered above `made`. The confirmation comes with the first, if with any.
    fn put_streams(&mut self, conn: ConnNo, sub: SubNo, made: u64, confirms: bool, streams: &[Name])
        requires room { length streams.now ≤ self.old.spare }
        requires numbers { made + length streams.now < 2 ^ 64 }
        ensures wanted { self.new.wanted ≡ self.old.wanted ++ wanted_above conn.0 sub.0 made confirms streams.now }
        ensures taken { self.new.taken ≡ self.old.taken }
    {
        for count in 0..streams.len() as u64 {
            self.put(Wanted {
                conn,
                sub,
                want: WantNo(made + count + 1),
                confirms: is_due(confirms, count),
            });
        }
    }

    /// Puts the wants that a change makes on a connection behind the others, in room that was made before. `sub` is the number that a new
    /// subscription gets.
    pub fn put_change(&mut self, conn: ConnNo, sub: SubNo, seat: &Seat, change: &Change)
        requires room { makes change.now ≤ self.old.spare }
        requires numbers { seat.now.made + makes change.now < 2 ^ 64 }
        ensures wanted { self.new.wanted ≡ self.old.wanted ++ wanted_with conn.0 sub.0 seat.now.made (bare seat.now.subs).subs change.now }
        ensures taken { self.new.taken ≡ self.old.taken }
    {
        match change {
            Change::Add { streams, .. } => {
                self.put_streams(conn, sub, seat.made(), true, streams.as_slice());
            }
            Change::Streams {
                identifier,
                streams,
                ..
            } => {
                let sub = number_of(seat.subs(), identifier.as_str());
                self.put_streams(conn, sub, seat.made(), false, streams.as_slice());
            }
            Change::Nothing | Change::Remove { .. } | Change::Close => {}
        }
    }

    /// Those that the turn out takes. It takes no memory.
    pub fn taken(&self) -> &[Wanted]
        ensures { result.now ≡ take self.now.taken self.now.wanted }
    {
        &self.wanted[..self.taken as usize]
    }

    /// A turn was asked: it takes all. It takes no memory.
    pub fn take_all(&mut self)
        ensures wanted { self.new.wanted ≡ self.old.wanted }
        ensures taken { self.new.taken ≡ length self.old.wanted }
    {
        self.taken = self.wanted.len() as u64;
    }

    /// The turn was missed: what it took is still to be taken. It takes no memory.
    pub fn give_back(&mut self)
        ensures wanted { self.new.wanted ≡ self.old.wanted }
        ensures taken { self.new.taken ≡ 0 }
    {
        self.taken = 0;
    }

    /// The turn was delivered: what it took is taken. It takes no memory.
    pub fn drop_taken(&mut self)
        ensures wanted { self.new.wanted ≡ drop self.old.taken self.old.wanted }
        ensures taken { self.new.taken ≡ 0 }
    {
        self.wanted.drain(..self.taken as usize);
        self.taken = 0;
    }
    /// How many of those that the turn out takes are not of this connection.
    fn taken_but(&self, conn: ConnNo) -> u64
        ensures { result ≡ length (wanted_but conn.0 (take self.now.taken self.now.wanted)) }
    {
        self.taken()
            .iter()
            .filter(|wanted| wanted.conn != conn)
            .count() as u64
    }

    /// Drops those of this connection, also of those that the turn out takes. The others stay in their order, and it takes those of them that
    /// it took. It takes no memory.
    pub fn drop_those_of(&mut self, conn: ConnNo)
        ensures wanted { self.new.wanted ≡ wanted_but conn.0 self.old.wanted }
        ensures taken { self.new.taken ≡ length (wanted_but conn.0 (take self.old.taken self.old.wanted)) }
    {
        self.taken = self.taken_but(conn);
        self.wanted.retain(|wanted| wanted.conn != conn);
    }
}
