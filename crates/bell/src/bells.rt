use crate::rings::Rings;
use std::sync::{Condvar, Mutex, Wait};
use std::time::{Clock, Duration};

/// Ends waits early.
///
/// A ring that nobody waits for is kept for the next wait, up to as many as there are who wait here. So who looks for work, finds none and then
/// waits doesn't sleep through a ring that came in between. A wait may end for work that another one has done meanwhile: look again.
///
/// Its calls have no clauses. Between two of them others may ring and wait, so nothing that holds of the rings when a call returns is still
/// known to its caller, and of a locked value a proof knows what its type says. What a ring and a wait do to the rings, under the lock,
/// is said and proved of `Rings`, and `rings_are_not_lost` is the law over it.
#[derive(Drop)]
pub struct Bell {
    rings: Mutex<Rings>,
    rung: Condvar,
}

impl Bell {
    /// A bell at which so many wait.
    pub fn new(most: u32) -> Bell {
        Bell {
            rings: Mutex::new(Rings::none(most)),
            rung: Condvar::new(),
        }
    }

    /// Ends one wait: one that is under way, or else the next one.
    pub fn ring<R: Wait>(&self, rt: &R) {
        let mut rings = self.rings.lock(rt);
        rings.keep_one();
        drop(rings);
        self.rung.notify_one();
    }

    /// Ends the wait of each who waits here: those that are under way, and else the next ones.
    pub fn ring_all<R: Wait>(&self, rt: &R) {
        let mut rings = self.rings.lock(rt);
        rings.keep_all();
        drop(rings);
        self.rung.notify_all();
    }

    /// Waits until a ring, and at most for so long. Answers whether a ring ended the wait, which is used then. A ring that
    /// is kept ends the wait at once, even where it may last no time.
    pub fn wait<R: Wait + Clock>(&self, rt: &R, at_most: Duration) -> bool {
        let (mut rings, waited) = self
            .rung
            .wait_timeout_while(rt, self.rings.lock(rt), at_most, |rings| rings.is_empty());
        if waited.timed_out() {
            return false;
        }
        rings.use_one();
        true
    }
}
