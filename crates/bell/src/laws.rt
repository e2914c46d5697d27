ghost use Rattle.std.specs.Prelude.{◌≡◌, ◌<◌, ℕ};
ghost use Rattle.bell.specs.Rings.{EndsWait, KeptRings, rung, rung_for_all, used, used_by};

/// A ring is kept for the wait behind it, which uses this one and no other. A ring for all is kept for as many waits as there are who wait,
/// and for no more.
pub fn rings_are_not_lost()
    ensures kept { (r : KeptRings) → 0 < r.most → EndsWait (rung r) }
    ensures once { (r : KeptRings) → r.kept < r.most → used (rung r) ≡ r }
    ensures each { (r : KeptRings) (n : ℕ) → n < r.most → EndsWait (used_by n (rung_for_all r)) }
    ensures no_more { (r : KeptRings) → ¬ (EndsWait (used_by r.most (rung_for_all r))) }
{}
