ghost use Rattle.std.specs.Prelude.{◌≡◌, ◌+◌, ◌<◌, ◌≤◌, ◌∷◌, [], Bool, false, IsOk, IsTrue, MatchOption, OnErr, OnOk, filter, option_map, slice_get};
ghost use Rattle.std.specs.VecDeque.{deque_len, deque_capacity};
ghost use Rattle.run_queue.specs.ReadyLists.{AreOnce, ReadyKeeps, Puts, Nexts, DropsOut, has_number};
ghost use Rattle.run_queue.specs.Queued.{lives, ready_in, stamp_in, StartsLive, Skips};

use cable_base::{ConnNo, OutOfMemory};
use std::alloc::Global;
use std::collections::{HashMap, VecDeque};
use std::marker::Model;

/// A number in the queue. It is stale where its stamp is no longer the number's.
#[derive(Clone, Copy, Debug, PartialEq, Eq)]
struct Queued {
    conn: ConnNo,
    stamp: u64,
}

/// The connections that have something to work, first in, first out, each number once.
#[derive(Debug, Drop)]
pub struct Ready {
    queue: VecDeque<Queued>,
    stamps: HashMap<ConnNo, u64>,
    next_stamp: u64,
}

impl Model for Ready {
    ghost use Rattle.run_queue.specs.ReadyLists.{ReadyQueue};
    ghost use Rattle.run_queue.specs.Queued.{ready_in, stamp_in, spare_of, IsReady};
    ghost use Rattle.std.specs.HashMap.{spare};

    ghost Value = { ReadyQueue };

    ghost view = { λ a. record { waiting = ready_in (stamp_in a.stamps.entries) a.queue.items; spare = spare_of a.queue.len a.queue.cap (spare a.stamps) a.next_stamp } };

    ghost invariant = { λ a. IsReady (stamp_in a.stamps.entries) a.queue.items a.next_stamp };
}

/// Whether the number still has this stamp.
fn is_live(stamps: &HashMap<ConnNo, u64>, queued: &Queued) -> bool
    ensures { result ≡ lives (stamp_in stamps.now.entries) queued.now }
{
    match stamps.get(&queued.conn) {
        Some(stamp) => *stamp == queued.stamp,
        None => false,
    }
}

/// Drops the stale numbers at the front, or all of them where they are more than half of the queue.
fn drop_stale(queue: &mut VecDeque<Queued>, stamps: &HashMap<ConnNo, u64>)
    ensures skips { Skips (stamp_in stamps.now.entries) queue.old.items queue.new.items }
    ensures len { deque_len queue.new ≤ deque_len queue.old }
    ensures capacity { deque_capacity queue.new ≡ deque_capacity queue.old }
{
    if queue.len() / 2 > stamps.len() {
        queue.retain(|queued| is_live(stamps, queued));
        return;
    }
    while let Some(queued) = queue.front()
        && !is_live(stamps, queued)
    {
        queue.pop_front();
    }
}

impl Ready {
    /// The list without numbers. It takes no memory.
    pub fn empty(alloc: Global) -> Ready
        ensures { result.waiting ≡ [] }
    {
        Ready {
            queue: VecDeque::new(alloc),
            stamps: HashMap::new(alloc),
            next_stamp: 0,
        }
    }

    /// Makes room for so many more numbers, which can then be put without memory.
    pub fn reserve(&mut self, more: u64) -> Result<(), OutOfMemory>
        ensures same { ReadyKeeps self.old self.new }
        ensures ok { OnOk result (more ≤ self.new.spare) }
        ensures enough { more ≤ self.old.spare → IsOk result }
    {
        if u64::MAX - self.next_stamp < more {
            return Err(OutOfMemory);
        }
        self.queue.reserve(more as usize)?;
        self.stamps.reserve(more as usize)?;
        Ok(())
    }

    /// Puts a number behind the others. One that is there stays in its place, and takes no memory.
    pub fn put(&mut self, conn: ConnNo) -> Result<(), OutOfMemory>
        ensures ok { OnOk result (Puts conn self.old self.new) }
        ensures err { OnErr result (ReadyKeeps self.old self.new) }
        ensures room { 0 < self.old.spare → IsOk result }
        ensures there { IsTrue (has_number conn self.old.waiting) → IsOk result × (self.new ≡ self.old) }
    {
        if self.stamps.contains_key(&conn) {
            return Ok(());
        }
        if self.next_stamp == u64::MAX {
            return Err(OutOfMemory);
        }
        self.queue.reserve(1)?;
        self.stamps.insert(conn, self.next_stamp)?;
        self.queue.push_back_reserved(Queued {
            conn,
            stamp: self.next_stamp,
        });
        self.next_stamp += 1;
        Ok(())
    }

    /// Takes the first number. It takes no memory.
    pub fn next(&mut self) -> Option<ConnNo>
        ensures { MatchOption result ((self.old.waiting ≡ []) × (self.new ≡ self.old)) (λ conn. Nexts conn self.old self.new) }
    {
        let first = self.queue.pop_front()?;
        self.stamps.remove(&first.conn);
        drop_stale(&mut self.queue, &self.stamps);
        Some(first.conn)
    }

    /// The number that `next` would take.
    pub fn front(&self) -> Option<ConnNo>
        ensures first { result ≡ slice_get self.now.waiting 0 }
        ensures once { AreOnce self.now.waiting }
    {
        match self.queue.front() {
            Some(first) => Some(first.conn),
            None => None,
        }
    }

    /// Takes a number out, if it is there. It takes no memory.
    pub fn drop_out(&mut self, conn: ConnNo)
        ensures { DropsOut conn self.old self.new }
    {
        self.stamps.remove(&conn);
        drop_stale(&mut self.queue, &self.stamps);
    }
}
