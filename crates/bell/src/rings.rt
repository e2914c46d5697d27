ghost use Rattle.std.specs.Prelude.{◌≡◌, ◌↔◌, IsTrue};
ghost use Rattle.bell.specs.Rings.{EndsWait, rung, rung_for_all, used};

use std::marker::Model;

/// The rings that nobody waited for yet, and how many of them are kept at most.
#[derive(Debug, Drop)]
pub(crate) struct Rings {
    kept: u32,
    most: u32,
}

impl Model for Rings {
    ghost use Rattle.std.specs.Prelude.{◌≤◌};
    ghost use Rattle.bell.specs.Rings.{KeptRings};

    ghost Value = { KeptRings };

    ghost view = { λ r. record { kept = r.kept; most = r.most } };

    ghost invariant = { λ r. r.kept ≤ r.most };
}

impl Rings {
    /// No ring. So many are kept at most.
    pub(crate) fn none(most: u32) -> Rings
        ensures { result ≡ record { kept = 0; most = most } }
    {
        Rings { kept: 0, most }
    }

    /// Keeps one more, where there is room.
    pub(crate) fn keep_one(&mut self)
        ensures { self.new ≡ rung self.old }
    {
        self.kept = self.kept.saturating_add(1).min(self.most);
    }

    /// Keeps as many as there is room for.
    pub(crate) fn keep_all(&mut self)
        ensures { self.new ≡ rung_for_all self.old }
    {
        self.kept = self.most;
    }

    /// Uses the ring up that ended a wait.
    pub(crate) fn use_one(&mut self)
        requires { EndsWait self.old }
        ensures { self.new ≡ used self.old }
    {
        self.kept -= 1;
    }

    /// Whether none is kept.
    pub(crate) fn is_empty(&self) -> bool
        ensures { IsTrue result ↔ ¬ (EndsWait self.now) }
    {
        self.kept == 0
    }
}
