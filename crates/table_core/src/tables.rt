ghost use Rattle.std.specs.Prelude.{◌≡◌, ◌≢◌, ◌⊎◌, ◌↔◌, ◌+◌, ◌++◌, ◌∷◌, ◌≤◌, [], true, false, ⊤, Some, length};
ghost use Rattle.std.specs.Prelude.{IfErr, IfOk, IfSome, IsErrOf, IsOk, IsOkAnd, MatchResult, OnErr, OnOk, is_some};
ghost use Rattle.cable_base.specs.Causes.{Rose};
ghost use Rattle.cable_base.specs.Memory.{next_count};
ghost use Rattle.cable_model.specs.Journal.{offer_in};
ghost use Rattle.cable_model.specs.Limits.{page_rows};
ghost use Rattle.cable_model.specs.Table.{missed_note, oldest, row_with, upto_of};
ghost use Rattle.table_core.specs.declared.faults.StoreFault.TheVariants as store_fault;
ghost use Rattle.table_core.specs.Keepers.{CallsOnce, greatest_id, most_id, without};
ghost use Rattle.table_core.specs.Memory.{told_to_fail};
ghost use Rattle.table_core.specs.Shown.{EntersCommit};
ghost use Rattle.table_core.specs.Tables.{EndsAt, IsCaughtOf, IsTable, IsWithinLimits, TableState, read_note};
ghost use Rattle.poll_turn.specs.Notes.{note_in};

use crate::faults::{KeeperFault, StoreFault};
use crate::keepers::Keeper;
use crate::memory::MemKeeper;
use cable_base::{MOST_ID, Millis, Name, NodeNo, OutOfMemory, PAGE_ROWS, Row, RowId, Text};
use cable_model::Origin;
use poll_turn::{Caught, Turn, channel_hash};
use std::alloc::Global;
use std::marker::Model;

/// The table of all nodes. Its ids go on from the last one that its keeper had, each one above the one before, and it alone writes to
/// its keeper.
#[derive(Debug, Drop)]
pub struct Table<K: Keeper> {
    keeper: K,
    last: RowId,
    alloc: Global,
}

impl<K: Keeper> Model for Table<K> {
    ghost use Rattle.table_core.specs.Tables.{IsTable, TableState};

    ghost Value = { TableState K };

    ghost view = { λ a. record { keeper = a.keeper; last = a.last } };

    ghost invariant = { λ a. IsTable (K.rows a.keeper) a.last.0 };
}

/// A keeper over which no table was started, handed back as it was but for its counts.
#[derive(Debug, Drop)]
pub struct NotStarted<K> {
    pub keeper: K,
    pub fault: StoreFault,
}

/// A row of its own with these values.
fn new_row(
    alloc: Global,
    id: RowId,
    channel: &str,
    payload: &str,
    at: Millis,
) -> Result<Row, OutOfMemory>
    ensures { IfOk result (λ row. row ≡ row_with id.0 (offer_in channel.now payload.now at.0)) }
{
    Ok(Row {
        id,
        channel: Name::new(alloc, channel)?,
        payload: Text::new(alloc, payload)?,
        created_at: at,
    })
}

/// Where a read that gave these rows ends: at the row that fills a page, or else at the table's last id.
fn end_of_read(rows: &[Row], last: RowId) -> RowId
    ensures { result.0 ≡ upto_of page_rows last.0 rows.now }
{
    match rows.get(PAGE_ROWS as usize - 1) {
        Some(row) => row.id,
        None => last,
    }
}

impl<K: Keeper> Table<K> {
    /// A table over the rows that the keeper has. It makes one call of the keeper. A refusal hands the keeper back with its rows, and is
    /// never `IdsSpent`.
    pub fn start(alloc: Global, keeper: K) -> Result<Table<K>, NotStarted<K>>
        ensures last { IfSome (K.rows keeper) (λ told. IfOk result (λ table. table.last.0 ≡ greatest_id told)) }
        ensures same { MatchResult result (λ table. K.rows table.keeper ≡ K.rows keeper) (λ refused. K.rows refused.keeper ≡ K.rows keeper) }
        ensures place { MatchResult result (λ table. K.place table.keeper ≡ K.place keeper) (λ refused. K.place refused.keeper ≡ K.place keeper) }
        ensures ok { IfOk result (λ table. CallsOnce ⊤ ⊥ (K.counts keeper) (K.counts table.keeper)) }
        ensures err { IfErr result (λ refused. CallsOnce ⊥ (refused.fault ≡ store_fault.Failed) (K.counts keeper) (K.counts refused.keeper)) }
        ensures fault { IfErr result (λ refused. refused.fault ≢ store_fault.IdsSpent) }
    {
        let mut keeper = keeper;
        match keeper.last_id() {
            Ok(last) => Ok(Table {
                keeper,
                last,
                alloc,
            }),
            Err(fault) => Err(NotStarted {
                keeper,
                fault: StoreFault::from(fault),
            }),
        }
    }

    /// Tells a node that is booted the last id. It makes no call of the keeper, and takes no memory as long as no log is kept.
    pub fn boot(&mut self, _node: NodeNo) -> Result<RowId, OutOfMemory>
        ensures last { IfOk result (λ last. last ≡ self.old.last) }
        ensures same { self.new ≡ self.old }
    {
        Ok(self.last)
    }

    /// The id of the row that was committed last, or that the keeper had last. It takes no memory.
    pub fn last(&self) -> RowId
        ensures last { result ≡ self.now.last }
        ensures most { result.0 ≤ most_id }
    {
        self.last
    }

    /// The keeper. It takes no memory.
    pub fn keeper(&self) -> &K
        ensures { result.now ≡ self.now.keeper }
    {
        &self.keeper
    }

    /// Puts a row behind the others, under the next id. The limits are this profile's: a name of at most `MOST_NAME` bytes, a payload of
    /// squeezed JSON of at most `MOST_PAYLOAD` bytes, and a moment below `MOMENT_LIMIT`. It is refused as `IdsSpent` exactly where the last id
    /// is `MOST_ID`, and makes no call of the keeper then, nor where memory is wanted for the row. Else it makes one call. After a refusal the
    /// rows and the last id are as before.
    pub fn commit(
        &mut self,
        from: Origin,
        channel: &str,
        payload: &str,
        at: Millis,
    ) -> Result<RowId, StoreFault>
        requires { IsWithinLimits channel.now payload.now at.0 }
        ensures next { IfOk result (λ id. id.0 ≡ self.old.last.0 + 1) }
        ensures last { IfOk result (λ id. self.new.last ≡ id) }
        ensures row { IfSome (K.rows self.old.keeper) (λ told.
            IfOk result (λ id. K.rows self.new.keeper ≡ Some (told ++ row_with id.0 (offer_in channel.now payload.now at.0) ∷ []))) }
        ensures entry { EntersCommit from channel.now payload.now at.0 result
            (K.rows self.old.keeper) (K.rows self.new.keeper) self.old.last.0 self.new.last.0 }
        ensures tells { is_some (K.rows self.new.keeper) ≡ is_some (K.rows self.old.keeper) }
        ensures err { OnErr result ((K.rows self.new.keeper ≡ K.rows self.old.keeper) × (self.new.last ≡ self.old.last)) }
        ensures spent { IsErrOf result store_fault.IdsSpent ↔ (self.old.last.0 ≡ most_id) }
        ensures idle { IsErrOf result store_fault.IdsSpent → self.new ≡ self.old }
        ensures call { (self.new ≡ self.old) × (IsErrOf result store_fault.IdsSpent ⊎ IsErrOf result store_fault.OutOfMemory)
            ⊎ CallsOnce (IsOk result) (IsErrOf result store_fault.Failed) (K.counts self.old.keeper) (K.counts self.new.keeper) }
        ensures place { K.place self.new.keeper ≡ K.place self.old.keeper }
    {
        if self.last.0 == MOST_ID {
            return Err(StoreFault::IdsSpent);
        }
        let id = RowId(self.last.0 + 1);
        let row = new_row(self.alloc, id, channel, payload, at)?;
        self.keeper.insert(&row, channel_hash(channel))?;
        self.last = id;
        Ok(id)
    }

    /// Reads what a turn asks for: the rows above its `lower` whose names have one of its hashes, up to a page of them. It makes one call
    /// of the keeper. Where that fails, the turn is missed. Where memory is wanted, the turn is handed back.
    pub fn read(&mut self, turn: Turn) -> Result<Caught, Turn>
        ensures found { IfSome (K.rows self.old.keeper) (λ told.
            IfOk result (λ caught. caught.is_missed ≡ false → note_in caught ≡ read_note turn.lower.0 self.old.last.0 turn.hashes told)) }
        ensures missed { IfOk result (λ caught. caught.is_missed ≡ true → note_in caught ≡ missed_note turn.lower.0) }
        ensures end { IfOk result (λ caught. caught.is_missed ≡ false → EndsAt self.old.last caught) }
        ensures turn { MatchResult result (IsCaughtOf turn) (λ back. back ≡ turn) }
        ensures same { (K.rows self.new.keeper ≡ K.rows self.old.keeper) × (self.new.last ≡ self.old.last) }
        ensures call { CallsOnce (IsOkAnd result (λ caught. caught.is_missed ≡ false)) (IsOkAnd result (λ caught. caught.is_missed ≡ true))
            (K.counts self.old.keeper) (K.counts self.new.keeper) }
        ensures place { K.place self.new.keeper ≡ K.place self.old.keeper }
    {
        let rows = match self.keeper.fetch(turn.lower(), turn.hashes(), PAGE_ROWS) {
            Ok(rows) => rows,
            Err(KeeperFault::Failed) => return Ok(turn.missed()),
            Err(KeeperFault::OutOfMemory) => return Err(turn),
        };
        let upto = end_of_read(&rows, self.last);
        Ok(turn.found(upto, self.last, rows))
    }

    /// Takes the first rows by id, at most `batch`, that are older than the retention at this moment. The newest row stays. It answers how
    /// many were taken. It makes one call of the keeper, and is never refused as `IdsSpent`.
    pub fn trim(&mut self, now: Millis, retention: Millis, batch: u64) -> Result<u64, StoreFault>
        ensures ok { IfSome (K.rows self.old.keeper) (λ told.
            OnOk result (K.rows self.new.keeper ≡ Some (without (oldest now.0 retention.0 batch self.old.last.0 told) told))) }
        ensures count { IfSome (K.rows self.old.keeper) (λ told. IfOk result (λ count. count ≡ length (oldest now.0 retention.0 batch self.old.last.0 told))) }
        ensures tells { is_some (K.rows self.new.keeper) ≡ is_some (K.rows self.old.keeper) }
        ensures err { OnErr result (K.rows self.new.keeper ≡ K.rows self.old.keeper) }
        ensures last { self.new.last ≡ self.old.last }
        ensures fault { IfErr result (λ fault. fault ≢ store_fault.IdsSpent) }
        ensures call { CallsOnce (IsOk result) (IsErrOf result store_fault.Failed) (K.counts self.old.keeper) (K.counts self.new.keeper) }
        ensures place { K.place self.new.keeper ≡ K.place self.old.keeper }
    {
        // What is older than the retention was committed before this moment.
        let before = Millis(now.0.saturating_sub(retention.0));
        let count = self.keeper.trim(before, self.last, batch)?;
        Ok(count)
    }
}

impl Table<MemKeeper> {
    /// Makes the next call of the keeper fail. It takes no memory.
    pub fn fail_next(&mut self)
        ensures { self.new ≡ record { keeper = told_to_fail self.old.keeper; last = self.old.last } }
    {
        self.keeper.fail_next();
    }
}
