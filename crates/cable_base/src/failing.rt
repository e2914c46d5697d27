ghost use Rattle.std.specs.Prelude.{◌≡◌};
ghost use Rattle.cable_base.specs.Memory.{fails_next, after_call};

use std::marker::Model;

/// The calls of an object in memory that are to fail, for tests.
#[derive(Debug, Drop)]
pub struct FailingCalls {
    planned: Vec<u64>,
    calls: u64,
}

impl Model for FailingCalls {
    ghost use Rattle.cable_base.specs.Memory.{PlannedFailures};

    ghost Value = { PlannedFailures };

    ghost view = { λ a. record { planned = a.planned.items; calls = a.calls } };
}

impl FailingCalls {
    /// The calls in `planned` are to fail. They are counted from 1, and there was none yet.
    pub fn new(planned: Vec<u64>) -> FailingCalls
        ensures { result ≡ record { planned = planned.items; calls = 0 } }
    {
        FailingCalls { planned, calls: 0 }
    }

    /// Counts a call, and answers whether it is to fail.
    pub fn next_fails(&mut self) -> bool
        ensures fails { result ≡ fails_next self.old }
        ensures counts { self.new ≡ after_call self.old }
    {
        self.calls = self.calls.saturating_add(1);
        self.planned.contains(&self.calls)
    }
}
