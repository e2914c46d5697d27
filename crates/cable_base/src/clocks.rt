ghost use Rattle.std.specs.Prelude.{◌<◌};

use crate::limits::MOMENT_LIMIT;
use crate::numbers::Millis;
use std::time;

/// Tells the moment.
pub trait Clock {
    /// The present moment, in milliseconds since 1970, below `MOMENT_LIMIT`.
    fn now(&self) -> Millis
        ensures { result.0 < MOMENT_LIMIT };
}

/// The system's clock, read through the runtime.
#[derive(Drop)]
pub struct SystemClock<'a, R> {
    rt: &'a R,
}

impl<'a, R: time::Clock> SystemClock<'a, R> {
    /// The clock of this runtime.
    pub fn on(rt: &'a R) -> SystemClock<'a, R> {
        SystemClock { rt }
    }
}

impl<'a, R: time::Clock> Clock for SystemClock<'a, R> {
    /// The moment of the system's clock. 0 where it fails or tells a moment outside the range.
    fn now(&self) -> Millis {
        let Ok(since) = self.rt.since_1970() else {
            return Millis(0);
        };
        let millis = since.as_millis();
        if millis < MOMENT_LIMIT as u128 {
            Millis(millis as u64)
        } else {
            Millis(0)
        }
    }
}
