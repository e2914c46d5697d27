ghost use Rattle.std.specs.Prelude.{◌≡◌, List, ℕ, is_some, IfOk, length};
ghost use Rattle.std.specs.declared.option.Option.{Option};
ghost use Rattle.std.specs.Io.{ReadsAtMost};
ghost use Rattle.std.specs.Io.KnownBytes.{ReadConsumes, WriteAppends};
ghost use Rattle.cable_base.specs.Causes.{HasCause, CountsEnds, TakesSome};
ghost use Rattle.cable_base.specs.Troubles.{HasTrouble};

use crate::faults::{Failed, Trouble};

/// Gives its bytes in pieces.
///
/// It counts its faults and its ends. A count never falls, and one that stands at 2^64 - 1 counts as having risen.
pub trait Source {
    /// The bytes that are left, where it tells them.
    ghost left: { Self → Option (List ℕ) };

    /// How many refusals it counted.
    ghost faults: { Self → ℕ };

    /// How many ends it counted.
    ghost ends: { Self → ℕ };

    /// Puts its next bytes at the front of the buffer and answers how many, which for a buffer that isn't empty is 0 exactly at
    /// the end. `Failed` takes none.
    fn next_piece(&mut self, buf: &mut [u8]) -> Result<usize, Failed>
        ensures bound { ReadsAtMost result buf.new }
        ensures bytes { ReadConsumes (left self.old) (left self.new) result buf.new }
        ensures tells { is_some (left self.new) ≡ is_some (left self.old) }
        ensures cause { HasCause (faults self.old) (faults self.new) result }
        ensures end { CountsEnds (ends self.old) (ends self.new) (length buf.new) result };
}

/// Takes bytes in pieces.
///
/// It counts its faults. The count never falls, and counts as having risen where it stands at 2^64 - 1.
pub trait Sink {
    /// The bytes that it took, where it tells them.
    ghost taken: { Self → Option (List ℕ) };

    /// How many failures it counted.
    ghost faults: { Self → ℕ };

    /// Takes a front of the piece, of a piece that isn't empty at least one byte, and answers how many. A refusal takes none.
    fn put(&mut self, bytes: &[u8]) -> Result<usize, Trouble>
        ensures some { IfOk result (TakesSome (length bytes.now)) }
        ensures bytes { WriteAppends (taken self.old) (taken self.new) result bytes.now }
        ensures tells { is_some (taken self.new) ≡ is_some (taken self.old) }
        ensures cause { HasTrouble (faults self.old) (faults self.new) result };
}
