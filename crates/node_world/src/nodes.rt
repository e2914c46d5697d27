ghost use Rattle.std.specs.Prelude.{◌≡◌, IfOk};
ghost use Rattle.cable_model.specs.declared.events.Event.TheVariants as event;
ghost use Rattle.cable_model.specs.Script.{rules_of};
ghost use Rattle.node_world.specs.Parts.{held, FollowsSome};
ghost use Rattle.node_world.specs.Steps.{StepsIn};

use crate::draining::drain_each;
use crate::outstanding::TurnOut;
use crate::parts::{Parts, Post};
use crate::saying::{Said, idle, silent};
use cable_base::{Millis, NodeNo, OutOfMemory};
use node_core::Node;
use std::alloc::Global;

impl Parts {
    pub fn boot(&mut self, alloc: Global, node: NodeNo) -> Result<Said, OutOfMemory>
        ensures steps { IfOk result (λ s. StepsIn (rules_of self.old.book) (event.Boot node) (held self.old) s (held self.new)) }
        ensures book { self.new.book ≡ self.old.book }
    {
        if self.posts.contains_key(&node.0) {
            return Ok(idle(alloc));
        }
        let last = self.table.boot(node)?;
        let post = Post {
            node: Node::boot_unlogged(alloc, node, last),
            turn: TurnOut::None,
        };
        self.posts.insert(node.0, post)?;
        Ok(silent(alloc))
    }

    pub fn stop(&mut self, alloc: Global, node: NodeNo) -> Result<Said, OutOfMemory>
        ensures steps { IfOk result (λ s. StepsIn (rules_of self.old.book) (event.Stop node) (held self.old) s (held self.new)) }
        ensures book { self.new.book ≡ self.old.book }
    {
        let Some(post) = self.posts.get_mut(&node.0) else {
            return Ok(idle(alloc));
        };
        post.node.stop()?;
        Ok(silent(alloc))
    }

    pub fn beat(&mut self, alloc: Global, node: NodeNo, now: Millis) -> Result<Said, OutOfMemory>
        requires stands { FollowsSome (rules_of self.old.book) (held self.old) }
        ensures steps { IfOk result (λ s. StepsIn (rules_of self.old.book) (event.Beat node now) (held self.old) s (held self.new)) }
        ensures book { self.new.book ≡ self.old.book }
    {
        let Some(post) = self.posts.get_mut(&node.0) else {
            return Ok(idle(alloc));
        };
        let conns = post.node.receiving()?;
        post.node.beat(now)?;
        drain_each(alloc, &mut post.node, &conns)
    }
}
