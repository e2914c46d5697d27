ghost use Rattle.std.specs.Prelude.{◌≡◌, ◌≤◌, ◌<◌, ◌+◌, ◌∷◌, [], length, None, Some, OnOk, IfOk, option_map};
ghost use Rattle.cable_model.specs.Journal.{cut, past_of, step_of};
ghost use Rattle.cable_model.specs.Steps.{Step};
ghost use Rattle.node_log.specs.Logs.{cut_from, entered};
ghost use Rattle.node_core.specs.Journals.{begun, beside_in, log_in, told};

use cable_base::{ConnNo, OutOfMemory, RowId};
use cable_model::{Beside, Entry};
use node_log::{History, NodeLog};
use std::alloc::Global;
use std::marker::Model;

/// A log that is stored. What it tells is the history of its entries.
#[derive(Debug, Drop)]
pub struct Stored {
    log: NodeLog,
    tells: History,
}

impl Model for Stored {
    ghost use Rattle.std.specs.Prelude.{◌≡◌, length};
    ghost use Rattle.node_core.specs.Journals.{StoredState};

    ghost Value = { StoredState };

    ghost view = { λ a. record { kept = a.tells; spare = a.log.spare } };

    ghost use Rattle.node_core.specs.Journals.{BeginsWithBoot};

    ghost invariant = { λ a. record {
      entries : a.log.entries ≡ a.tells.log;
      paired : length a.tells.log ≡ length a.tells.beside;
      begins : BeginsWithBoot a.tells.log;
    } };
}

impl Stored {
    /// A log that begins with a Boot at this row.
    fn begin(alloc: Global, last: RowId) -> Result<Stored, OutOfMemory>
        ensures { IfOk result (λ s. s.kept ≡ begun last) }
    {
        let mut log = NodeLog::empty(alloc);
        log.push(Entry::Boot { last })?;
        Ok(Stored {
            log,
            tells: booted(last),
        })
    }

    /// Makes room for so many more entries.
    fn reserve(&mut self, more: u64) -> Result<(), OutOfMemory>
        ensures kept { self.new.kept ≡ self.old.kept }
        ensures room { OnOk result (more ≤ self.new.spare) }
        ensures stays { self.old.spare ≤ self.new.spare }
    {
        self.log.reserve(more)
    }

    /// Enters an entry, where there is room for it. It takes no memory.
    fn enter(&mut self, entry: Entry, beside: &Beside)
        requires { 0 < self.old.spare }
        ensures entered { self.new.kept ≡ entered entry beside.now self.old.kept }
        ensures spare { self.old.spare ≤ self.new.spare + 1 }
    {
        self.tells.enter(&entry, beside);
        let _ = self.log.push(entry);
    }

    /// Takes the entries of this connection out. It takes no memory.
    fn cut(&mut self, conn: ConnNo)
        ensures kept { self.new.kept ≡ cut_from conn.0 self.old.kept }
        ensures cut { past_of self.new.kept ≡ cut conn.0 (past_of self.old.kept) }
        ensures spare { self.old.spare ≤ self.new.spare }
    {
        self.log.cut(&[conn]);
        self.tells.cut(conn);
    }

    /// Leaves one Boot with this row, and nothing else. It takes no memory.
    fn begin_again(&mut self, last: RowId)
        ensures kept { self.new.kept ≡ begun last }
        ensures spare { self.old.spare ≤ self.new.spare }
    {
        self.log.begin_again(last);
        self.tells = booted(last);
    }

    /// The entries, in order. It takes no memory.
    fn entries(&self) -> &[Entry]
        ensures entries { result.now ≡ self.now.kept.log }
        ensures paired { length self.now.kept.log ≡ length self.now.kept.beside }
        ensures whole { length self.now.kept.log ≡ length (past_of self.now.kept) }
    {
        self.log.entries()
    }
}

/// The history that begins with a Boot at this row.
fn booted(last: RowId) -> History
    ensures kept { result ≡ begun last }
    ensures begun { past_of result ≡ Step.Boot last.0 ∷ [] }
{
    let mut history = History::empty();
    history.enter(&Entry::Boot { last }, &Beside::Nothing);
    history
}

/// Lets an entry go that no log stores.
fn let_go(_entry: Entry) {}

/// A node's journal. Clauses alone read its history, which has no bytes; beside it stands its log, where one is stored.
#[derive(Debug, Drop)]
pub struct Journal {
    history: History,
    stored: Option<Stored>,
}

impl Model for Journal {
    ghost use Rattle.node_core.specs.Journals.{JournalState, kept_in, spare_in};

    ghost Value = { JournalState };

    ghost view = { λ a. record { kept = a.history; stored = kept_in a.stored; spare = spare_in a.stored } };
}

impl Journal {
    /// A journal that begins with a Boot at this row, and stores no log. It takes no memory.
    pub fn unlogged(last: RowId) -> Journal
        ensures begun { past_of result.kept ≡ Step.Boot last.0 ∷ [] }
        ensures stored { result.stored ≡ None }
    {
        Journal {
            history: booted(last),
            stored: None,
        }
    }

    /// A journal that begins with a Boot at this row, and stores its log.
    pub fn begin(alloc: Global, last: RowId) -> Result<Journal, OutOfMemory>
        ensures begun { IfOk result (λ j. past_of j.kept ≡ Step.Boot last.0 ∷ []) }
        ensures stored { IfOk result (λ j. j.stored ≡ Some j.kept) }
    {
        let stored = Stored::begin(alloc, last)?;
        Ok(Journal {
            history: booted(last),
            stored: Some(stored),
        })
    }

    /// Makes room for two entries: the next one, and the Deliver of a turn that is out.
    pub fn reserve(&mut self) -> Result<(), OutOfMemory>
        ensures kept { self.new.kept ≡ self.old.kept }
        ensures stored { self.new.stored ≡ self.old.stored }
        ensures room { OnOk result (2 ≤ self.new.spare) }
        ensures stays { self.old.spare ≤ self.new.spare }
    {
        match &mut self.stored {
            Some(stored) => stored.reserve(2),
            None => Ok(()),
        }
    }

    /// Enters an entry with what is kept beside it, where there is room for it: in the history, and in the log that is stored. It takes no
    /// memory.
    pub fn enter(&mut self, entry: Entry, beside: Beside)
        requires { 0 < self.old.spare }
        ensures entered { past_of self.new.kept ≡ step_of entry beside ∷ past_of self.old.kept }
        ensures kept { self.new.kept ≡ entered entry beside self.old.kept }
        ensures stored { self.new.stored ≡ option_map (entered entry beside) self.old.stored }
        ensures spare { self.old.spare ≤ self.new.spare + 1 }
    {
        self.history.enter(&entry, &beside);
        match &mut self.stored {
            Some(stored) => stored.enter(entry, &beside),
            None => let_go(entry),
        }
    }

    /// Takes the entries of this connection out of the log that is stored. The history stays. It takes no memory.
    pub fn cut(&mut self, conn: ConnNo)
        ensures kept { self.new.kept ≡ self.old.kept }
        ensures stored { self.new.stored ≡ option_map (cut_from conn.0) self.old.stored }
        ensures cut { told self.new.stored ≡ cut conn.0 (told self.old.stored) }
        ensures spare { self.old.spare ≤ self.new.spare }
    {
        if let Some(stored) = &mut self.stored {
            stored.cut(conn);
        }
    }

    /// Leaves one Boot with this row of the log that is stored, and nothing else. The history stays. It takes no memory.
    pub fn begin_again(&mut self, last: RowId)
        ensures kept { self.new.kept ≡ self.old.kept }
        ensures stored { self.new.stored ≡ option_map (λ _. begun last) self.old.stored }
        ensures spare { self.old.spare ≤ self.new.spare }
    {
        if let Some(stored) = &mut self.stored {
            stored.begin_again(last);
        }
    }

    /// The log that is stored, in order, and else nothing. Beside each of its entries something is kept, so that each is one of the
    /// journal that it tells. It takes no memory.
    pub fn entries(&self) -> &[Entry]
        ensures log { result.now ≡ log_in self.now.stored }
        ensures paired { length (log_in self.now.stored) ≡ length (beside_in self.now.stored) }
        ensures whole { length (log_in self.now.stored) ≡ length (told self.now.stored) }
    {
        match &self.stored {
            Some(stored) => stored.entries(),
            None => &[],
        }
    }
}
