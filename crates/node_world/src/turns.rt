ghost use Rattle.std.specs.Prelude.{◌≡◌, ◌<◌, ◌∷◌, true, IfOk, OnOk};
ghost use Rattle.cable_model.specs.declared.events.Event.TheVariants as event;
ghost use Rattle.cable_model.specs.Script.{rules_of};
ghost use Rattle.cable_model.specs.Steps.{Step};
ghost use Rattle.node_core.specs.Nodes.{past, TakesNone};
ghost use Rattle.node_core.specs.Turned.{is_expected};
ghost use Rattle.poll_turn.specs.Notes.{note_in};
ghost use Rattle.node_world.specs.Parts.{held, FollowsSome};
ghost use Rattle.node_world.specs.Steps.{StepsIn};

use crate::outstanding::{OutCaught, OutTurn, TurnOut};
use crate::parts::Parts;
use crate::saying::{Said, idle, read_said, silent};
use cable_base::{NodeNo, OutOfMemory, Steps};
use node_core::Node;
use poll_turn::Caught;
use std::alloc::Global;
use std::marker::Brand;
use std::sync::ledger::{Blank, Ledger};

/// Delivers what was caught, in a ledger of steps of its own.
fn deliver_counted<L: Ledger>(
    node: &mut Node,
    caught: Caught,
    blank: Blank,
) -> Result<(), OutOfMemory>
    requires name { blank.name ≡ L.name }
    requires parts { blank.parts ≡ L.parts }
    requires some { 0 < blank.parts }
    requires expected { is_expected caught node.old ≡ true }
    ensures no { node.new.no ≡ node.old.no }
    ensures ok { OnOk result (past node.new ≡ Step.Deliver caught.number (note_in caught) ∷ past node.old) }
    ensures taken { TakesNone node.old node.new }
{
    let mut steps = Steps::<L>::begin(blank);
    match node.deliver(caught, &mut steps) {
        Ok(()) => Ok(()),
        Err(caught) => {
            caught.give_up();
            Err(OutOfMemory)
        }
    }
}

impl Parts {
    pub fn ask(&mut self, alloc: Global, node: NodeNo) -> Result<Said, OutOfMemory>
        ensures steps { IfOk result (λ s. StepsIn (rules_of self.old.book) (event.Ask node) (held self.old) s (held self.new)) }
        ensures book { self.new.book ≡ self.old.book }
    {
        let Some(post) = self.posts.get_mut(&node.0) else {
            return Ok(idle(alloc));
        };
        let Some(turn) = post.node.ask()? else {
            return Ok(idle(alloc));
        };
        post.turn = TurnOut::Asked(OutTurn { turn });
        Ok(silent(alloc))
    }

    pub fn read(&mut self, alloc: Global, node: NodeNo) -> Result<Said, OutOfMemory>
        ensures steps { IfOk result (λ s. StepsIn (rules_of self.old.book) (event.Read node) (held self.old) s (held self.new)) }
        ensures book { self.new.book ≡ self.old.book }
    {
        let Some(post) = self.posts.get_mut(&node.0) else {
            return Ok(idle(alloc));
        };
        let out = match std::mem::replace(&mut post.turn, TurnOut::None) {
            TurnOut::Asked(out) => out,
            turn => {
                post.turn = turn;
                return Ok(idle(alloc));
            }
        };
        let caught = match self.table.read(out.into_turn()) {
            Ok(caught) => caught,
            Err(turn) => {
                turn.give_up();
                return Err(OutOfMemory);
            }
        };
        let missed = caught.is_missed();
        post.turn = TurnOut::Read(OutCaught { caught });
        read_said(alloc, missed)
    }

    pub fn deliver(&mut self, alloc: Global, node: NodeNo) -> Result<Said, OutOfMemory>
        requires stands { FollowsSome (rules_of self.old.book) (held self.old) }
        ensures steps { IfOk result (λ s. StepsIn (rules_of self.old.book) (event.Deliver node) (held self.old) s (held self.new)) }
        ensures book { self.new.book ≡ self.old.book }
    {
        let Some(post) = self.posts.get_mut(&node.0) else {
            return Ok(idle(alloc));
        };
        let out = match std::mem::replace(&mut post.turn, TurnOut::None) {
            TurnOut::Read(out) => out,
            turn => {
                post.turn = turn;
                return Ok(idle(alloc));
            }
        };
        deliver_counted::<Brand>(&mut post.node, out.into_caught(), Blank::new(1))?;
        Ok(silent(alloc))
    }
}
