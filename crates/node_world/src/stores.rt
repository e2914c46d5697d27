ghost use Rattle.std.specs.Prelude.{◌≡◌, IfOk};
ghost use Rattle.cable_model.specs.declared.events.Event.TheVariants as event;
ghost use Rattle.cable_model.specs.Script.{rules_of};
ghost use Rattle.table_core.specs.Tables.{IsWithinLimits};
ghost use Rattle.node_world.specs.Parts.{held};
ghost use Rattle.node_world.specs.Steps.{StepsIn};

use crate::parts::Parts;
use crate::saying::{Said, one_line, silent, store_refused};
use cable_base::{Millis, OutOfMemory};
use cable_model::{Line, Origin};
use std::alloc::Global;
use table_core::StoreFault;

impl Parts {
    /// Ids that are spent are a count that would pass its end, which is answered as want of memory.
    pub fn cast(
        &mut self,
        alloc: Global,
        at: Millis,
        channel: &str,
        payload: &str,
    ) -> Result<Said, OutOfMemory>
        requires limits { IsWithinLimits channel.now payload.now at.0 }
        ensures steps { IfOk result (λ s. StepsIn (rules_of self.old.book) (event.Cast at channel.now payload.now) (held self.old) s (held self.new)) }
        ensures book { self.new.book ≡ self.old.book }
    {
        match self.table.commit(Origin::Cast, channel, payload, at) {
            Ok(id) => one_line(alloc, Line::Row { id }),
            Err(StoreFault::Failed) => store_refused(alloc),
            Err(StoreFault::IdsSpent | StoreFault::OutOfMemory) => Err(OutOfMemory),
        }
    }

    pub fn trim(
        &mut self,
        alloc: Global,
        now: Millis,
        retention: Millis,
        batch: u64,
    ) -> Result<Said, OutOfMemory>
        ensures steps { IfOk result (λ s. StepsIn (rules_of self.old.book) (event.Trim now retention batch) (held self.old) s (held self.new)) }
        ensures book { self.new.book ≡ self.old.book }
    {
        match self.table.trim(now, retention, batch) {
            Ok(count) => one_line(alloc, Line::Trimmed { count }),
            Err(StoreFault::Failed) => store_refused(alloc),
            Err(StoreFault::IdsSpent | StoreFault::OutOfMemory) => Err(OutOfMemory),
        }
    }

    pub fn fault(&mut self, alloc: Global) -> Said
        ensures steps { StepsIn (rules_of self.old.book) event.Fault (held self.old) result (held self.new) }
        ensures book { self.new.book ≡ self.old.book }
    {
        self.table.fail_next();
        silent(alloc)
    }
}
