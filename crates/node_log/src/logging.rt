ghost use Rattle.std.specs.Prelude.{◌≡◌, ◌<◌, ◌≤◌, ◌∷◌, [], length, IfOk, IsOk, OnErr, OnOk};
ghost use Rattle.cable_base.specs.declared.numbers.RowId.{RowId};
ghost use Rattle.cable_model.specs.declared.journals.Entry.TheVariants as entry;
ghost use Rattle.node_log.specs.Logs.{Appends, MakesRoom, is_among as is_of_one, is_entry_of as is_of, left_of};

use cable_base::{ConnNo, OutOfMemory, RowId};
use cable_model::Entry;
use std::alloc::Global;
use std::marker::Model;

/// Whether the entry is of this connection.
fn is_entry_of(conn: ConnNo, entry: &Entry) -> bool
    ensures { result ≡ is_of conn.0 entry.now }
{
    match entry {
        Entry::Open { conn: of, .. }
        | Entry::In { conn: of, .. }
        | Entry::Drop { conn: of }
        | Entry::Take { conn: of }
        | Entry::Finish { conn: of, .. } => *of == conn,
        Entry::Boot { .. }
        | Entry::Stop
        | Entry::Ask { .. }
        | Entry::Deliver { .. }
        | Entry::Beat { .. } => false,
    }
}

/// Whether the entry is of one of these connections.
fn is_among(conns: &[ConnNo], entry: &Entry) -> bool
    ensures { result ≡ is_of_one conns.now entry.now }
{
    conns.iter().any(|conn| is_entry_of(*conn, entry))
}

/// The log of a node. It grows at its end alone, and is cut.
#[derive(Debug, Drop)]
pub struct NodeLog {
    entries: Vec<Entry>,
}

impl Model for NodeLog {
    ghost use Rattle.std.specs.Prelude.{◌-◌, vec_len, vec_capacity};
    ghost use Rattle.node_log.specs.Logs.{Log};

    ghost Value = { Log };

    ghost view = { λ a. record { entries = a.entries.items; spare = vec_capacity a.entries - vec_len a.entries } };
}

impl NodeLog {
    /// The log without entries. It takes no memory.
    pub fn empty(alloc: Global) -> NodeLog
        ensures { result.entries ≡ [] }
    {
        NodeLog {
            entries: Vec::new(alloc),
        }
    }

    /// A log of copies of these entries.
    pub fn of(alloc: Global, entries: &[Entry]) -> Result<NodeLog, OutOfMemory>
        ensures { IfOk result (λ log. log.entries ≡ entries.now) }
    {
        let mut copies = Vec::new(alloc);
        for entry in entries {
            copies.push(entry.copy(alloc)?)?;
        }
        Ok(NodeLog { entries: copies })
    }

    /// Makes room for so many more entries, which can then be pushed without memory.
    pub fn reserve(&mut self, more: u64) -> Result<(), OutOfMemory>
        ensures ok { OnOk result (MakesRoom more self.old self.new) }
        ensures err { OnErr result (self.new ≡ self.old) }
        ensures enough { more ≤ self.old.spare → IsOk result }
    {
        self.entries.reserve(more as usize)?;
        Ok(())
    }

    /// Puts an entry at the end.
    pub fn push(&mut self, entry: Entry) -> Result<(), OutOfMemory>
        ensures ok { OnOk result (Appends entry self.old self.new) }
        ensures err { OnErr result (self.new ≡ self.old) }
        ensures room { 0 < self.old.spare → IsOk result }
    {
        if self.entries.len() == self.entries.capacity() {
            self.entries.reserve(1)?;
        }
        self.entries.push_reserved(entry);
        Ok(())
    }

    /// Takes the entries of these connections out. The others keep their order. It takes no memory.
    pub fn cut(&mut self, closed: &[ConnNo])
        ensures entries { self.new.entries ≡ left_of closed.now self.old.entries }
        ensures spare { self.old.spare ≤ self.new.spare }
    {
        self.entries.retain(|entry| !is_among(closed, entry));
    }

    /// Leaves one Boot with this row, and nothing else. It takes no memory, since there was an entry.
    pub fn begin_again(&mut self, last: RowId)
        requires { 0 < length self.old.entries }
        ensures entries { self.new.entries ≡ entry.Boot last ∷ [] }
        ensures spare { self.old.spare ≤ self.new.spare }
    {
        self.entries.clear();
        self.entries.push_reserved(Entry::Boot { last });
    }

    /// The entries, in order.
    pub fn entries(&self) -> &[Entry]
        ensures { result.now ≡ self.now.entries }
    {
        self.entries.as_slice()
    }
}
