ghost use Rattle.std.specs.Prelude.{◌≡◌};
ghost use Rattle.tungstenite.specs.Failure.{IsIo};
ghost use Rattle.cable_link.specs.declared.outcomes.Outcome.TheVariants as outcome;

use std::io::ErrorKind;
use tungstenite::Error;

/// What an error of a socket is to its link.
#[derive(Clone, Copy, Debug, PartialEq, Eq)]
pub(crate) enum Outcome {
    /// The stream would have to wait.
    Blocked,
    /// The socket is closed.
    Closed,
    /// Memory was wanted and not to be had.
    NoMemory,
    /// A message or a frame is longer than the link takes.
    TooLong,
    /// The stream failed, or the peer broke the protocol.
    Broken,
}

pub(crate) fn outcome_of(error: &Error) -> Outcome
    ensures { result ≡ outcome.Blocked → IsIo error.now }
{
    match error {
        Error::ConnectionClosed | Error::AlreadyClosed => Outcome::Closed,
        Error::OutOfMemory => Outcome::NoMemory,
        Error::Capacity(_) => Outcome::TooLong,
        Error::Io(cause) => {
            if cause.kind() == ErrorKind::WouldBlock {
                Outcome::Blocked
            } else {
                Outcome::Broken
            }
        }
        _ => Outcome::Broken,
    }
}
