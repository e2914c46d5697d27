ghost use Rattle.std.specs.Prelude.{◌≡◌};
ghost use Rattle.cable_link.specs.Backlogs.{flushed, is_waiting, left, moment_of, since};

use cable_base::Millis;

/// A moment, and how many bytes the peer had taken by then.
#[derive(Clone, Copy, Debug, PartialEq, Eq)]
pub(crate) struct Mark {
    pub(crate) at: Millis,
    pub(crate) taken: u64,
}

/// What the peer hasn't taken of that which was said.
#[derive(Clone, Copy, Debug, PartialEq, Eq)]
pub(crate) enum Backlog {
    /// Nothing.
    Nothing,
    /// Something, and no moment was told since.
    Unseen,
    /// Something, since this moment or before.
    Since(Mark),
}

/// Since when the peer has taken none, at a flush: since the moment that was told, if the flush moved nothing.
fn moment_of(at: Millis, told: Option<Millis>, before: u64, now: u64) -> Millis
    ensures { result ≡ moment_of at told before now }
{
    match told {
        Some(told) if before == now => told,
        _ => at,
    }
}

impl Backlog {
    /// Whether there is something.
    pub(crate) fn is_waiting(&self) -> bool
        ensures { result ≡ is_waiting self.now }
    {
        match self {
            Backlog::Nothing => false,
            Backlog::Unseen | Backlog::Since(_) => true,
        }
    }

    /// Since when the peer, which has taken so many bytes by now, has taken none.
    pub(crate) fn since(&self, taken: u64) -> Option<Millis>
        ensures { result ≡ since self.now taken }
    {
        match self {
            Backlog::Nothing | Backlog::Unseen => None,
            Backlog::Since(mark) => {
                if mark.taken == taken {
                    Some(mark.at)
                } else {
                    None
                }
            }
        }
    }

    /// What a write leaves behind that the stream didn't take whole.
    pub(crate) fn left(&self) -> Backlog
        ensures { result ≡ left self.now }
    {
        match self {
            Backlog::Nothing => Backlog::Unseen,
            Backlog::Unseen | Backlog::Since(_) => *self,
        }
    }

    /// What a flush at this moment leaves. The peer had taken so many bytes before it, and none since the moment `told`; by now it has
    /// taken so many.
    pub(crate) fn flushed(&self, at: Millis, told: Option<Millis>, before: u64, now: u64) -> Backlog
        ensures { result ≡ flushed self.now at told before now }
    {
        match self {
            Backlog::Nothing => Backlog::Nothing,
            Backlog::Unseen | Backlog::Since(_) => Backlog::Since(Mark {
                at: moment_of(at, told, before, now),
                taken: now,
            }),
        }
    }
}
