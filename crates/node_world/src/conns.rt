ghost use Rattle.std.specs.Prelude.{◌≡◌, IfOk};
ghost use Rattle.cable_model.specs.declared.events.Event.TheVariants as event;
ghost use Rattle.cable_model.specs.Script.{rules_of};
ghost use Rattle.node_world.specs.Parts.{held, FollowsSome};
ghost use Rattle.node_world.specs.Steps.{StepsIn};

use crate::draining::drain;
use crate::parts::{Opened, Parts};
use crate::saying::{Said, idle, noted, silent};
use cable_base::{ConnNo, NodeNo, OutOfMemory};
use cable_model::Note;
use node_core::{ArriveFault, OpenFault};
use std::alloc::Global;

impl Parts {
    /// A number that was opened on any node is used.
    pub fn open(
        &mut self,
        alloc: Global,
        node: NodeNo,
        conn: ConnNo,
        token: &str,
    ) -> Result<Said, OutOfMemory>
        requires stands { FollowsSome (rules_of self.old.book) (held self.old) }
        ensures steps { IfOk result (λ s. StepsIn (rules_of self.old.book) (event.Open node conn token.now) (held self.old) s (held self.new)) }
        ensures book { self.new.book ≡ self.old.book }
    {
        if self.conns.contains_key(&conn.0) {
            return Ok(idle(alloc));
        }
        let Some(post) = self.posts.get_mut(&node.0) else {
            return Ok(idle(alloc));
        };
        match post.node.open_conn(conn, token, &self.book) {
            Ok(()) => {}
            Err(OpenFault::Used) => return Ok(idle(alloc)),
            Err(OpenFault::Full) => return Ok(idle(alloc)),
            Err(OpenFault::OutOfMemory) => return Err(OutOfMemory),
        }
        self.conns.insert(conn.0, Opened { node, work: None })?;
        drain(alloc, &mut post.node, conn)
    }

    pub fn arrive(&mut self, alloc: Global, conn: ConnNo, text: &str) -> Result<Said, OutOfMemory>
        ensures steps { IfOk result (λ s. StepsIn (rules_of self.old.book) (event.In conn text.now) (held self.old) s (held self.new)) }
        ensures book { self.new.book ≡ self.old.book }
    {
        let Some(opened) = self.conns.get(&conn.0) else {
            return Ok(idle(alloc));
        };
        let Some(post) = self.posts.get_mut(&opened.node.0) else {
            return Ok(idle(alloc));
        };
        match post.node.arrive(conn, text) {
            Ok(()) => Ok(silent(alloc)),
            Err(ArriveFault::Unknown | ArriveFault::Shut) => Ok(idle(alloc)),
            Err(ArriveFault::TooLong) => noted(alloc, conn, Note::TooLong),
            Err(ArriveFault::Busy) => noted(alloc, conn, Note::Busy),
            Err(ArriveFault::OutOfMemory) => Err(OutOfMemory),
        }
    }

    pub fn leave(&mut self, alloc: Global, conn: ConnNo) -> Result<Said, OutOfMemory>
        ensures steps { IfOk result (λ s. StepsIn (rules_of self.old.book) (event.Drop conn) (held self.old) s (held self.new)) }
        ensures book { self.new.book ≡ self.old.book }
    {
        let Some(opened) = self.conns.get(&conn.0) else {
            return Ok(idle(alloc));
        };
        let Some(post) = self.posts.get_mut(&opened.node.0) else {
            return Ok(idle(alloc));
        };
        if !post.node.gone(conn)? {
            return Ok(idle(alloc));
        }
        Ok(silent(alloc))
    }
}
