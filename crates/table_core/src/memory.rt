ghost use Rattle.std.specs.Prelude.{◌≡◌, ◌<◌, ◌≤◌, ◌++◌, [], ◌∷◌, Some, IfErr, IfOk, IsErrOf, IsOk, OnOk, drop, filter, length, ltb, take};
ghost use Rattle.std.specs.List.{All, remove};
ghost use Rattle.table_core.specs.declared.memory.Kept.{Kept as KeptRow};
ghost use Rattle.cable_model.specs.Table.{contains};
ghost use Rattle.table_core.specs.declared.faults.KeeperFault.TheVariants as keeper_fault;
ghost use Rattle.table_core.specs.Inside.{AreKept, IsSortedFrom, asked, ends_old, is_taken, left_of, rows_of};
ghost use Rattle.table_core.specs.Keepers.{CallsOnce, greatest_id, most_id};
ghost use Rattle.table_core.specs.Memory.{IsRowId, mem_counts, mem_rows, starting_row, told_to_fail};

use crate::faults::KeeperFault;
use crate::keepers::Keeper;
use cable_base::{FailingCalls, Millis, Name, OutOfMemory, Row, RowId, Text};
use poll_turn::channel_hash;
use std::alloc::Global;
use std::collections::VecDeque;
use std::marker::Model;

/// A row with the hash of its name.
#[derive(Debug, Drop)]
struct Kept {
    row: Row,
    hash: i64,
}

impl Kept {
    fn new(row: Row, hash: i64) -> Kept
        ensures { result ≡ record { row = row; hash = hash } }
    {
        Kept { row, hash }
    }
}

/// A keeper in memory. It tells its rows, and fails at the calls that it is told.
///
/// The rows stand by rising id in a ring. A fetch finds its first row by halving and looks at those behind it. A trim looks at rows from
/// the front until it has taken its batch. Where moments no longer fall behind a row that isn't old, it stops there. A row that is taken
/// gives its texts back at once, and its place in the ring is used again by later rows.
#[derive(Debug, Drop)]
pub struct MemKeeper {
    rows: VecDeque<Kept>,
    /// From this id on no row is from before the one in front of it.
    sorted_from: RowId,
    failing: FailingCalls,
    fails_next: bool,
    faults: u64,
}

impl Model for MemKeeper {
    ghost use Rattle.table_core.specs.Memory.{MemRows};
    ghost use Rattle.table_core.specs.Inside.{AreKept, IsSortedFrom, rows_of};

    ghost Value = { MemRows };

    ghost view = { λ a. record { rows = rows_of a.rows.items; failures = record { planned = a.failing; next = a.fails_next }; faults = a.faults } };

    ghost invariant = { λ a. AreKept a.rows.items × IsSortedFrom a.sorted_from.0 a.rows.items };
}

/// Whether the hash is among these.
fn is_asked(hashes: &[i64], hash: i64) -> bool
    ensures { result ≡ contains hashes.now hash }
{
    hashes.contains(&hash)
}

/// Whether a row is from before a moment and stands below an id.
fn goes(kept: &Kept, before: Millis, below: RowId) -> bool
    ensures { result ≡ is_taken before.0 below.0 kept.now }
{
    kept.row.created_at < before && kept.row.id < below
}

/// Whether neither this row nor one behind it is from before a moment.
fn ends_walk(kept: &Kept, sorted_from: RowId, before: Millis) -> bool
    ensures { result ≡ ends_old sorted_from.0 before.0 kept.now }
{
    sorted_from <= kept.row.id && before <= kept.row.created_at
}

/// From which id on the moments don't fall, once this row stands behind the others.
fn sorted_with(rows: &VecDeque<Kept>, sorted_from: RowId, row: &Row) -> RowId
    requires sorted { IsSortedFrom sorted_from.0 rows.now.items }
    requires above { All (λ r. r.id.0 < row.now.id.0) (rows_of rows.now.items) }
    ensures { (k : KeptRow) → k.row ≡ row.now → IsSortedFrom result.0 (rows.now.items ++ k ∷ []) }
{
    let Some(last) = rows.back() else {
        return sorted_from;
    };
    if row.created_at.0 < last.row.created_at.0 {
        return row.id;
    }
    sorted_from
}

/// How many rows stand up to this id.
fn count_upto(rows: &VecDeque<Kept>, id: RowId) -> usize
    requires { AreKept rows.now.items }
    ensures within { result ≤ length rows.now.items }
    ensures above { rows_of (drop result rows.now.items) ≡ filter (λ r. ltb id.0 r.id.0) (rows_of rows.now.items) }
{
    rows.partition_point(|kept| kept.row.id <= id)
}

/// The id of the last row, or 0 where there is none.
fn last_of(rows: &VecDeque<Kept>) -> RowId
    requires { AreKept rows.now.items }
    ensures last { result.0 ≡ greatest_id (rows_of rows.now.items) }
    ensures most { result.0 ≤ most_id }
{
    match rows.back() {
        Some(kept) => kept.row.id,
        None => RowId(0),
    }
}

/// Puts a copy of the row behind those found, where its hash is among these.
fn add_asked(found: &mut Vec<Row>, kept: &Kept, hashes: &[i64]) -> Result<(), OutOfMemory>
    ensures { OnOk result (found.new.items ≡ found.old.items ++ asked hashes.now (kept.now ∷ [])) }
{
    if is_asked(hashes, kept.hash) {
        let row = kept.row.copy(*found.allocator())?;
        found.push(row)?;
    }
    Ok(())
}

/// Copies of the first rows from a place on, so many at most, whose hash is among these.
fn copied_from(
    rows: &VecDeque<Kept>,
    start: usize,
    hashes: &[i64],
    limit: u64,
) -> Result<Vec<Row>, OutOfMemory>
    requires { start ≤ length rows.now.items }
    ensures { IfOk result (λ found. found.items ≡ take limit (asked hashes.now (drop start rows.now.items))) }
{
    let mut found = Vec::new(*rows.allocator());
    for at in start..rows.len() {
        if found.len() as u64 == limit {
            return Ok(found);
        }
        add_asked(&mut found, &rows[at], hashes)?;
    }
    Ok(found)
}

/// Takes the row at a place away.
fn take_at(rows: &mut VecDeque<Kept>, at: usize)
    requires { at < length rows.old.items }
    ensures { rows.new.items ≡ remove rows.old.items at }
{
    rows.remove(at);
}

/// Takes the first rows, so many at most, from before a moment and below an id, and answers how many these are.
fn take_first(
    rows: &mut VecDeque<Kept>,
    sorted_from: RowId,
    before: Millis,
    below: RowId,
    limit: u64,
) -> u64
    requires { IsSortedFrom sorted_from.0 rows.old.items }
    ensures left { rows.new.items ≡ left_of (is_taken before.0 below.0) limit rows.old.items }
    ensures count { result ≡ length (take limit (filter (is_taken before.0 below.0) rows.old.items)) }
{
    let mut taken = 0;
    let mut at = 0;
    while taken < limit && at < rows.len() {
        if ends_walk(&rows[at], sorted_from, before) {
            return taken;
        }
        if goes(&rows[at], before, below) {
            take_at(rows, at);
            taken += 1;
        } else {
            at += 1;
        }
    }
    taken
}

impl MemKeeper {
    /// A keeper without rows, of which no call is to fail. It takes no memory.
    pub fn empty(alloc: Global) -> MemKeeper
        ensures { result ≡ mem_rows [] [] }
    {
        MemKeeper::failing(alloc, Vec::new(alloc))
    }

    /// A keeper without rows, of which these calls are to fail, counted from 1. It takes no memory.
    pub fn failing(alloc: Global, calls: Vec<u64>) -> MemKeeper
        ensures { result ≡ mem_rows [] calls.items }
    {
        MemKeeper {
            rows: VecDeque::new(alloc),
            sorted_from: RowId(0),
            failing: FailingCalls::new(calls),
            fails_next: false,
            faults: 0,
        }
    }

    /// A keeper with one row of this id, whose name is empty and whose payload is `null`.
    pub fn starting_at(alloc: Global, last: RowId) -> Result<MemKeeper, OutOfMemory>
        requires { IsRowId last }
        ensures { IfOk result (λ keeper. keeper ≡ mem_rows (starting_row last ∷ []) []) }
    {
        let mut keeper = MemKeeper::empty(alloc);
        let row = Row {
            id: last,
            channel: Name::new(alloc, "")?,
            payload: Text::new(alloc, "null")?,
            created_at: Millis(0),
        };
        let hash = channel_hash("");
        keeper.rows.push_back(Kept::new(row, hash))?;
        Ok(keeper)
    }

    /// Makes the next call fail. It takes no memory.
    pub fn fail_next(&mut self)
        ensures { self.new ≡ told_to_fail self.old }
    {
        self.fails_next = true;
    }

    /// Counts a call, and fails where it is to fail.
    fn call(&mut self) -> Result<(), KeeperFault>
        ensures same { self.new.rows ≡ self.old.rows }
        ensures err { IfErr result (λ fault. fault ≡ keeper_fault.Failed) }
        ensures call { CallsOnce (IsOk result) (IsErrOf result keeper_fault.Failed) (mem_counts self.old) (mem_counts self.new) }
    {
        let fails = self.failing.next_fails() || self.fails_next;
        self.fails_next = false;
        if fails {
            self.faults = self.faults.saturating_add(1);
            return Err(KeeperFault::Failed);
        }
        Ok(())
    }
}

impl Keeper for MemKeeper {
    ghost use Rattle.std.specs.Prelude.{Some};

    ghost rows = { λ k. Some k.rows };

    ghost counts = { λ k. mem_counts k };

    ghost place = { λ _. tt };

    fn last_id(&mut self) -> Result<RowId, KeeperFault> {
        self.call()?;
        Ok(last_of(&self.rows))
    }

    fn insert(&mut self, row: &Row, hash: i64) -> Result<(), KeeperFault> {
        self.call()?;
        let row = row.copy(*self.rows.allocator())?;
        let sorted_from = sorted_with(&self.rows, self.sorted_from, &row);
        self.rows.push_back(Kept::new(row, hash))?;
        self.sorted_from = sorted_from;
        Ok(())
    }

    fn fetch(&mut self, lower: RowId, hashes: &[i64], limit: u64) -> Result<Vec<Row>, KeeperFault> {
        self.call()?;
        let start = count_upto(&self.rows, lower);
        let found = copied_from(&self.rows, start, hashes, limit)?;
        Ok(found)
    }

    fn trim(&mut self, before: Millis, below: RowId, limit: u64) -> Result<u64, KeeperFault> {
        self.call()?;
        Ok(take_first(&mut self.rows, self.sorted_from, before, below, limit))
    }
}
