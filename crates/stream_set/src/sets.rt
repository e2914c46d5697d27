ghost use Rattle.std.specs.Prelude.{◌≡◌, ◌+◌, ◌≤◌, ◌++◌, [], ◌∷◌, false, not, position, IfOk, OnOk, OnErr, IsOk};
ghost use Rattle.std.specs.Bool.{OnTrue, OnFalse};
ghost use Rattle.stream_set.specs.Streams.{Streams, wanted_now, is_named, has_name, has_want, waits_as, waits, placed, without, want_of, mark_of, AreApart};

use crate::entries::StreamEntry;
use cable_base::{Name, OutOfMemory, RowId, WantNo};
use std::alloc::Global;
use std::marker::Model;

/// The streams of one subscription, in the order in which they were wanted. No two have one name or one number.
#[derive(Debug, Drop)]
pub struct StreamSet {
    entries: Vec<StreamEntry>,
}

impl Model for StreamSet {
    ghost use Rattle.std.specs.Prelude.{◌-◌, vec_len};
    ghost use Rattle.std.specs.Vec.{vec_capacity};
    ghost use Rattle.stream_set.specs.Streams.{Streams, AreApart};

    ghost Value = { Streams };

    ghost view = { λ a. record { entries = a.entries.items; spare = vec_capacity a.entries - vec_len a.entries } };

    ghost invariant = { λ a. AreApart a.entries.items };
}

fn has(entries: &[StreamEntry], name: &str) -> bool
    ensures { result ≡ has_name name.now entries.now }
{
    entries.iter().any(|entry| entry.name.as_str() == name)
}

fn place_of(entries: &[StreamEntry], name: &str) -> Option<usize>
    ensures { result ≡ position (is_named name.now) entries.now }
{
    entries.iter().position(|entry| entry.name.as_str() == name)
}

fn place_of_waiting(entries: &[StreamEntry], want: WantNo) -> Option<usize>
    ensures { result ≡ position (waits_as want) entries.now }
{
    entries
        .iter()
        .position(|entry| entry.want == want && entry.mark.is_none())
}

impl StreamSet {
    /// The set without streams. It takes no memory.
    pub fn empty(alloc: Global) -> StreamSet
        ensures { result ≡ record { entries = []; spare = 0 } }
    {
        StreamSet {
            entries: Vec::new(alloc),
        }
    }

    /// Wants a stream of this name, behind the others. `false` where the name is there.
    pub fn want(&mut self, name: &str, want: WantNo) -> Result<bool, OutOfMemory>
        requires { has_want want self.old.entries ≡ false }
        ensures answer { IfOk result (λ added. added ≡ not (has_name name.now self.old.entries)) }
        ensures added { IfOk result (λ added. OnTrue added (self.new.entries ≡ self.old.entries ++ wanted_now name.now want ∷ [])) }
        ensures kept { IfOk result (λ added. OnFalse added (self.new ≡ self.old)) }
        ensures err { OnErr result (self.new ≡ self.old) }
    {
        if has(&self.entries, name) {
            return Ok(false);
        }
        let name = Name::new(*self.entries.allocator(), name)?;
        self.entries.reserve(1)?;
        self.entries.push_reserved(StreamEntry {
            name,
            want,
            mark: None,
        });
        Ok(true)
    }

    /// Makes room for this many more streams, so that `want_kept` takes no memory.
    pub fn reserve(&mut self, more: u64) -> Result<(), OutOfMemory>
        ensures entries { self.new.entries ≡ self.old.entries }
        ensures ok { OnOk result (more ≤ self.new.spare) }
        ensures spare { self.old.spare ≤ self.new.spare }
        ensures err { OnErr result (self.new ≡ self.old) }

        // It is refused only where that room was missing.
        ensures succeeds { more ≤ self.old.spare → IsOk result }
    {
        self.entries.reserve(more as usize)?;
        Ok(())
    }

    /// Does what `want` does, in room that was made before. It takes no memory.
    pub fn want_kept(&mut self, name: Name, want: WantNo) -> bool
        requires room { 1 ≤ self.old.spare }
        requires fresh { has_want want self.old.entries ≡ false }
        ensures answer { result ≡ not (has_name name self.old.entries) }
        ensures added { OnTrue result (self.new.entries ≡ self.old.entries ++ wanted_now name want ∷ []) }
        ensures spent { OnTrue result (self.new.spare + 1 ≡ self.old.spare) }
        ensures kept { OnFalse result (self.new ≡ self.old) }
    {
        if has(&self.entries, name.as_str()) {
            return false;
        }
        self.entries.push_reserved(StreamEntry {
            name,
            want,
            mark: None,
        });
        true
    }

    /// Gives the stream that was wanted under this number its mark: from now on it is held. `false` where no such stream is there
    /// without a mark. It takes no memory.
    pub fn place(&mut self, want: WantNo, mark: RowId) -> bool
        ensures answer { result ≡ waits want self.old.entries }
        ensures entries { self.new.entries ≡ placed want mark self.old.entries }
        ensures spare { self.new.spare ≡ self.old.spare }
    {
        let Some(at) = place_of_waiting(&self.entries, want) else {
            return false;
        };
        let entry = &mut self.entries[at];
        entry.mark = Some(mark);
        true
    }

    /// Ends the stream of this name, and answers the number under which it was wanted. It takes no memory.
    pub fn stop(&mut self, name: &str) -> Option<WantNo>
        ensures answer { result ≡ want_of name.now self.old.entries }
        ensures entries { self.new.entries ≡ without name.now self.old.entries }
        ensures spare { self.old.spare ≤ self.new.spare }
    {
        let at = place_of(&self.entries, name)?;
        let StreamEntry { want, .. } = self.entries.remove(at);
        Some(want)
    }

    /// Ends all streams. It takes no memory.
    pub fn stop_all(&mut self)
        ensures entries { self.new.entries ≡ [] }
        ensures spare { self.old.spare ≤ self.new.spare }
    {
        self.entries.clear();
    }

    /// The mark of the stream of this name, where it is held. It takes no memory.
    pub fn held(&self, name: &str) -> Option<RowId>
        ensures { result ≡ mark_of name.now self.now.entries }
    {
        let at = place_of(&self.entries, name)?;
        self.entries[at].mark
    }

    /// The streams, in the order in which they were wanted. It takes no memory.
    pub fn entries(&self) -> &[StreamEntry]
        ensures entries { result.now ≡ self.now.entries }
        ensures apart { AreApart self.now.entries }
    {
        self.entries.as_slice()
    }
}
