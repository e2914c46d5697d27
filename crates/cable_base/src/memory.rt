ghost use Rattle.std.specs.Prelude.{◌≡◌, ◌≤◌, ◌<◌, ◌↔◌, [], Some, is_some, length, take, IfOk, OnOk, IsErr, IsErrOf, IsTrue};
ghost use Rattle.std.specs.Io.{ReadsAtMost};
ghost use Rattle.std.specs.Io.KnownBytes.{ReadConsumes, WriteAppends};
ghost use Rattle.cable_base.specs.Causes.{HasCause, CountsEnds, TakesSome};
ghost use Rattle.cable_base.specs.Troubles.{HasTrouble};

use crate::failing::FailingCalls;
use crate::faults::{Failed, Trouble};
use crate::streams::{Sink, Source};
use std::alloc::Global;
use std::marker::Model;

/// A source over bytes in memory, for tests: it tells its bytes, cuts them into pieces, and fails at the calls that it is told.
#[derive(Debug, Drop)]
pub struct MemSource {
    bytes: Vec<u8>,
    at: usize,
    piece: u64,
    failing: FailingCalls,
    faults: u64,
    ends: u64,
}

impl Model for MemSource {
    ghost use Rattle.std.specs.Prelude.{◌≤◌, ◌<◌, length, drop};
    ghost use Rattle.cable_base.specs.Memory.{MemInput};

    ghost Value = { MemInput };

    ghost view = { λ a. record { left = drop a.at a.bytes.items; piece = a.piece; failing = a.failing; faults = a.faults; ends = a.ends } };

    ghost invariant = { λ a. (a.at ≤ length a.bytes.items) × (0 < a.piece) };
}

/// Puts these bytes at the front of the buffer.
fn fill(buf: &mut [u8], from: &[u8])
    requires { length from.now ≤ length buf.old }
    ensures { take (length from.now) buf.new ≡ from.now }
{
    let (front, _) = buf.split_at_mut(from.len());
    front.copy_from_slice(from);
}

impl MemSource {
    /// A source that gives these bytes, at most `piece` in a call. The calls in `failing`, counted from 1, fail.
    pub fn new(bytes: Vec<u8>, piece: u64, failing: Vec<u64>) -> MemSource
        requires { 0 < piece }
        ensures { result ≡ record { left = bytes.items; piece = piece; failing = record { planned = failing.items; calls = 0 }; faults = 0; ends = 0 } }
    {
        MemSource {
            bytes,
            at: 0,
            piece,
            failing: FailingCalls::new(failing),
            faults: 0,
            ends: 0,
        }
    }
}

impl Source for MemSource {
    ghost use Rattle.cable_base.specs.Memory.{fails_next, after_call, next_len};

    ghost left = { λ s. Some s.left };

    ghost faults = { λ s. s.faults };

    ghost ends = { λ s. s.ends };

    fn next_piece(&mut self, buf: &mut [u8]) -> Result<usize, Failed>
        ensures bound { ReadsAtMost result buf.new }
        ensures bytes { ReadConsumes (Some self.old.left) (Some self.new.left) result buf.new }
        ensures tells { is_some (Some self.new.left) ≡ is_some (Some self.old.left) }
        ensures cause { HasCause self.old.faults self.new.faults result }
        ensures end { CountsEnds self.old.ends self.new.ends (length buf.new) result }

        // It fails exactly at the calls that it was told, and gives as much as there is, as has room and as a piece holds.
        ensures exact { IsErr result ↔ IsTrue (fails_next self.old.failing) }
        ensures calls { self.new.failing ≡ after_call self.old.failing }
        ensures len { IfOk result (λ n. n ≡ next_len self.old (length buf.new)) }
        ensures piece { self.new.piece ≡ self.old.piece }
        ensures calm { OnOk result (self.new.faults ≡ self.old.faults) }
    {
        if self.failing.next_fails() {
            self.faults = self.faults.saturating_add(1);
            return Err(Failed);
        }
        let rest = &self.bytes[self.at..];
        let count = rest.len().min(buf.len()).min(self.piece as usize);
        fill(buf, &rest[..count]);
        self.at += count;
        if count == 0 && !buf.is_empty() {
            self.ends = self.ends.saturating_add(1);
        }
        Ok(count)
    }
}

/// A sink in memory, for tests: it tells what it took, and fails at the calls that it is told.
#[derive(Debug, Drop)]
pub struct MemSink {
    bytes: Vec<u8>,
    failing: FailingCalls,
    faults: u64,
}

impl Model for MemSink {
    ghost use Rattle.cable_base.specs.Memory.{MemOutput};

    ghost Value = { MemOutput };

    ghost view = { λ a. record { taken = a.bytes.items; failing = a.failing; faults = a.faults } };
}

impl MemSink {
    /// A sink that took nothing yet. The calls in `failing`, counted from 1, fail.
    pub fn new(alloc: Global, failing: Vec<u64>) -> MemSink
        ensures { result ≡ record { taken = []; failing = record { planned = failing.items; calls = 0 }; faults = 0 } }
    {
        MemSink {
            bytes: Vec::new(alloc),
            failing: FailingCalls::new(failing),
            faults: 0,
        }
    }

    /// The bytes that it took.
    pub fn bytes(&self) -> &[u8]
        ensures { result.now ≡ self.now.taken }
    {
        self.bytes.as_slice()
    }
}

impl Sink for MemSink {
    ghost use Rattle.cable_base.specs.Memory.{fails_next, after_call};
    ghost use Rattle.cable_base.specs.declared.faults.Trouble.TheVariants as trouble;

    ghost taken = { λ s. Some s.taken };

    ghost faults = { λ s. s.faults };

    fn put(&mut self, bytes: &[u8]) -> Result<usize, Trouble>
        ensures some { IfOk result (TakesSome (length bytes.now)) }
        ensures bytes { WriteAppends (Some self.old.taken) (Some self.new.taken) result bytes.now }
        ensures tells { is_some (Some self.new.taken) ≡ is_some (Some self.old.taken) }
        ensures cause { HasTrouble self.old.faults self.new.faults result }

        // It fails exactly at the calls that it was told, and takes all where memory lasts.
        ensures exact { IsErrOf result trouble.Failed ↔ IsTrue (fails_next self.old.failing) }
        ensures calls { self.new.failing ≡ after_call self.old.failing }
        ensures all { IfOk result (λ n. n ≡ length bytes.now) }
        ensures calm { OnOk result (self.new.faults ≡ self.old.faults) }
    {
        if self.failing.next_fails() {
            self.faults = self.faults.saturating_add(1);
            return Err(Trouble::Failed);
        }
        if self.bytes.extend_from_slice(bytes).is_err() {
            return Err(Trouble::OutOfMemory);
        }
        Ok(bytes.len())
    }
}
