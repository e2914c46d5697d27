ghost use Rattle.std.specs.Prelude.{◌≡◌, ◌<◌, IfOk};
ghost use Rattle.cable_model.specs.declared.events.Event.TheVariants as event;
ghost use Rattle.cable_model.specs.Script.{rules_of};
ghost use Rattle.table_core.specs.Keepers.{moment_limit};
ghost use Rattle.node_world.specs.Parts.{held, is_left, FollowsSome};
ghost use Rattle.node_world.specs.Steps.{StepsIn};

use crate::draining::drain;
use crate::outstanding::OutWork;
use crate::parts::Parts;
use crate::saying::{Said, idle, noted, one_line, silent};
use cable_base::{ConnNo, Millis, OutOfMemory};
use cable_model::{Line, Note, Origin};
use std::alloc::Global;
use table_core::StoreFault;

/// Whether a cast of the work is left to be committed.
fn has_cast_left(work: &Option<OutWork>) -> bool
    ensures { result ≡ is_left work.now }
{
    match work {
        Some(out) => out.work.next_cast().is_some(),
        None => false,
    }
}

impl Parts {
    pub fn take(&mut self, alloc: Global, conn: ConnNo) -> Result<Said, OutOfMemory>
        ensures steps { IfOk result (λ s. StepsIn (rules_of self.old.book) (event.Take conn) (held self.old) s (held self.new)) }
        ensures book { self.new.book ≡ self.old.book }
    {
        let Some(opened) = self.conns.get_mut(&conn.0) else {
            return Ok(idle(alloc));
        };
        let Some(post) = self.posts.get_mut(&opened.node.0) else {
            return Ok(idle(alloc));
        };
        let Some(job) = post.node.take(conn)? else {
            return Ok(idle(alloc));
        };
        let work = match job.plan(&self.book) {
            Ok(work) => work,
            Err(job) => {
                job.give_up();
                return Err(OutOfMemory);
            }
        };
        opened.work = Some(OutWork { work });
        Ok(silent(alloc))
    }

    /// Ids that are spent are a count that would pass its end, which is answered as want of memory.
    pub fn put(&mut self, alloc: Global, conn: ConnNo, at: Millis) -> Result<Said, OutOfMemory>
        requires moment { at.0 < moment_limit }
        ensures steps { IfOk result (λ s. StepsIn (rules_of self.old.book) (event.Put conn at) (held self.old) s (held self.new)) }
        ensures book { self.new.book ≡ self.old.book }
    {
        let Some(opened) = self.conns.get_mut(&conn.0) else {
            return Ok(idle(alloc));
        };
        let Some(out) = opened.work.as_mut() else {
            return Ok(idle(alloc));
        };
        let Some(cast) = out.work.next_cast() else {
            return Ok(idle(alloc));
        };
        let (channel, payload) = (cast.channel.as_str(), cast.payload.as_str());
        match self.table.commit(Origin::Conn(conn), channel, payload, at) {
            Ok(id) => {
                out.work.noted(Some(id));
                one_line(alloc, Line::Row { id })
            }
            Err(StoreFault::Failed) => {
                out.work.noted(None);
                noted(alloc, conn, Note::StoreRefused)
            }
            Err(StoreFault::IdsSpent | StoreFault::OutOfMemory) => Err(OutOfMemory),
        }
    }

    pub fn finish(&mut self, alloc: Global, conn: ConnNo) -> Result<Said, OutOfMemory>
        requires stands { FollowsSome (rules_of self.old.book) (held self.old) }
        ensures steps { IfOk result (λ s. StepsIn (rules_of self.old.book) (event.Finish conn) (held self.old) s (held self.new)) }
        ensures book { self.new.book ≡ self.old.book }
    {
        let Some(opened) = self.conns.get_mut(&conn.0) else {
            return Ok(idle(alloc));
        };
        let Some(post) = self.posts.get_mut(&opened.node.0) else {
            return Ok(idle(alloc));
        };
        if has_cast_left(&opened.work) {
            return Ok(idle(alloc));
        }
        let Some(out) = opened.work.take() else {
            return Ok(idle(alloc));
        };
        match post.node.finish(out.into_work()) {
            Ok(()) => drain(alloc, &mut post.node, conn),
            Err(work) => {
                work.give_up();
                Err(OutOfMemory)
            }
        }
    }
}
