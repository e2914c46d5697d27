ghost use Rattle.std.specs.Prelude.{◌≡◌, [], true, false, IfOk, OnOk, OnErr, IsErr};
ghost use Rattle.node_world.specs.Steps.{IsPlayed};
ghost use Rattle.node_world.specs.Worlds.{IsStep, StandsFor};

use crate::parts::Parts;
use crate::saying::Said;
use cable_base::OutOfMemory;
use cable_model::Event;
use channel_book::Book;
use std::alloc::Global;
use std::marker::Model;

/// Up to eight nodes over one table that began empty. It is changed by events alone, each of which is one call on a node or on the table.
///
/// Whatever was stepped, there is a history for which the world stands.
#[derive(Debug, Drop)]
pub struct World {
    parts: Parts,
    /// A step wanted memory, and may have been left half done.
    is_spent: bool,
}

impl Model for World {
    ghost use Rattle.std.specs.Prelude.{◌≡◌, false};
    ghost use Rattle.cable_model.specs.Script.{rules_of};
    ghost use Rattle.node_world.specs.Parts.{held, FollowsSome};
    ghost use Rattle.node_world.specs.Worlds.{WorldState};

    ghost Value = { WorldState };

    ghost view = { λ w. record { book = w.parts.book; holds = held w.parts; is_spent = w.is_spent } };

    ghost invariant = { λ w. w.is_spent ≡ false → FollowsSome (rules_of w.parts.book) (held w.parts) };
}

impl World {
    /// A world with this book, in which nothing has happened: no node is booted, no connection was opened, and the table is empty.
    pub fn make(alloc: Global, book: Book) -> Result<World, OutOfMemory>
        ensures book { IfOk result (λ w. w.book ≡ book) }
        ensures stands { IfOk result (λ w. StandsFor w []) }
        ensures fresh { IfOk result (λ w. w.is_spent ≡ false) }
    {
        let parts = Parts::begin(alloc, book)?;
        Ok(World {
            parts,
            is_spent: false,
        })
    }

    /// Steps one event, and gives what it said: whether it was idle, and its lines. An event that isn't possible is idle, and changes nothing.
    ///
    /// Once a step wanted memory, each later one answers that too.
    pub fn step(&mut self, alloc: Global, event: &Event) -> Result<Said, OutOfMemory>
        requires played { IsPlayed event.now }
        ensures book { self.new.book ≡ self.old.book }
        ensures steps { IfOk result (λ said. IsStep event.now self.old said self.new) }
        ensures goes_on { OnOk result (self.new.is_spent ≡ false) }
        ensures spends { OnErr result (self.new.is_spent ≡ true) }
        ensures spent { self.old.is_spent ≡ true → IsErr result }
    {
        if self.is_spent {
            return Err(OutOfMemory);
        }
        let stepped = self.parts.step(alloc, event);
        self.is_spent = stepped.is_err();
        stepped
    }

    /// Lets go of the nodes, of the works and turns that are out, and of the table.
    pub fn end(self) {}
}
